// The calls at a given estimate, which is its carrier, its carrier step and two flat lists; a file each: it asks 01's
// questions in its order, then does the work. None has a `requires`. Crate `cancel` hands them on with the other calls.
#![tactic(auto)]

mod blocks;
mod evidence;
mod removal;
mod residual;

pub use blocks::{BlockClasses, block_classes};
pub use evidence::second_carrier_evidence;
pub use removal::subtract;
pub use residual::residual_check;
