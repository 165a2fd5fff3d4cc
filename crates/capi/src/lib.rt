// The C interface, a file for each subject: include/cancel.h says the same for a reader of C. Each function's
// parameters are the header's, so that a given estimate comes in its six parts.
#![tactic(auto)]

mod answers;
pub mod blocks;
pub mod calls;
pub mod clean;
pub mod functions;
pub mod hypothesis;
pub mod measures;
pub mod removal;
pub mod rows;
pub mod running;
pub mod version;
