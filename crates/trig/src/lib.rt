// The functions of document 01 that stand in for libm's: sin, cos and the argument of a complex number; log10 is in
// crate logarithm.
#![tactic(auto)]

pub mod argument;
pub mod choice;
pub mod circle;
pub mod consts;
pub mod table;

pub use argument::arg;
pub use circle::{SinCos, Sines};
pub use consts::{PI, TAU};
pub use table::sine_table;
