// An element's interior, and what a fit takes from it: the slope of its phase and its gain. cancel.rs has them in
// fit_elements.
#![tactic(auto)]

pub mod gain;
pub mod interior;
pub mod kept;
pub mod line;
pub mod slope;
pub mod stretch;
