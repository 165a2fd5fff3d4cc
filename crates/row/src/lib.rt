// The amplitude row of a recording at a carrier: cancel.rs from edge_window to the running sum of find_elements.
#![tactic(auto)]

pub mod blocks;
pub mod copies;
pub mod envelope;
pub mod recording;
pub mod samples;
pub mod span;
pub mod window;

pub use blocks::{block_means, derotated, mean_from, rotor};
pub use copies::copy;
pub use envelope::amplitudes;
pub use recording::{Recording, SampleRate, Samples};
pub use samples::all_finite;
pub use span::Span;
pub use window::{centre, edge_step, rate_ok, step_blocks};
