// Complex numbers as num_complex has them, and rows of them in flat slices.
#![tactic(auto)]

pub mod rows;
pub mod units;
pub mod value;

pub use rows::{get, put, sum};
pub use units::cos_sin;
pub use value::Complex;
