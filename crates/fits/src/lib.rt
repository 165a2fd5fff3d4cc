// The fits of a strong sender's elements, and its estimate: cancel.rs from fit_elements to estimate_strong.
#![tactic(auto)]

pub mod carrier;
pub mod estimate;
pub mod fit;
pub mod list;

pub use carrier::mean_slope_hz;
pub use estimate::{Estimate, StrongSender, estimate_strong};
pub use fit::{ElementFit, fit_one};
pub use list::{FIT, Fits, fit_at, fit_elements, put_fit};
