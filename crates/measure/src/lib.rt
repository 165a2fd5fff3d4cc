// What a recording's blocks show once a strong sender's estimate is known: cancel.rs's residual_check and
// second_carrier_evidence, and classify.
#![tactic(auto)]

pub mod both;
pub mod evidence;
pub mod hypothesis;
pub mod offset;
mod ready;
pub mod residual;

pub use both::{Measures, measure_both};
pub use evidence::{SecondCarrierEvidence, second_carrier_evidence};
pub use hypothesis::{Hypothesis, classify};
pub use residual::{ResidualCheck, residual_check};
