// What the programs read and write as bytes: a recording's samples, and text with numbers in base ten.
#![tactic(auto)]

pub mod bytes;
mod input;
mod reads;
pub mod text;

pub use bytes::{bytes_ok, samples};
pub use input::{INPUT, read_full, read_recording};
pub use reads::Came;
pub use text::Text;
