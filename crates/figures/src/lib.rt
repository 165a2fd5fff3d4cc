// What each call answers as figures: f64 in the order of include/cancel.h. A call for C hands out these, and stored
// answers are compared by them.
#![tactic(auto)]

pub mod calls;
mod clean;
mod flag;
mod hypothesis;
pub mod measures;
mod optional;
mod places;
pub mod rows;
pub mod running;

pub use calls::{of_estimate, of_find, of_fit};
pub use clean::{given_check, of_clean};
pub use hypothesis::{HypothesisCase, case_of, given_offset, of_hypothesis};
pub use measures::{of_evidence, of_residual};
pub use places::{
    CHECK_FIGURES, CLASSES_FIGURES, CLASSIFY_FIGURES, CLEAN_FIGURES, ESTIMATE_FIGURES,
    EVIDENCE_FIGURES, FIND_FIGURES, FIT_FIGURES, RESIDUAL_FIGURES, ROW_FIGURES, RUN_FIGURES,
};
pub use rows::{of_classes, of_row};
pub use running::of_run;
