// Rust's functions of f64, total, against the logic's account of IEEE 754.
#![tactic(auto)]

pub mod compare;
pub mod remainder;
pub mod single;
pub mod size;
pub mod whole;

pub use compare::{abs, max};
pub use remainder::{rem_euclid, rem_one};
pub use single::narrow;
pub use size::{Number, finite};
pub use whole::{TWO_52, ceil, exact, floor, from_whole, round, to_whole};
