// The circle's constants and the logarithms of 2 and of 10.
pub use std::f64::consts::{LN_2, LN_10, PI, TAU};
