// What program replay does without asking a call: it reads the stored answers, compares numbers, counts and tells.
// crates/replay/README.md has the form of the file.
#![tactic(auto)]

pub mod answer;
pub mod asked;
pub mod equal;
pub mod kept;
pub mod kind;
pub mod records;
pub mod tally;
pub mod told;
pub mod units;
