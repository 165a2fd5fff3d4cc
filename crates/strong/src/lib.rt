// The calls that look for the strong sender in a recording, a file each: it asks 01's questions in its order, then does
// the work. None has a `requires`. Crate `cancel` hands them on with the other calls.
#![tactic(auto)]

mod amplitude;
mod estimate;
mod find;
mod fit;

pub use amplitude::amplitude_row;
pub use estimate::estimate_strong;
pub use find::find_elements;
pub use fit::fit_elements;
