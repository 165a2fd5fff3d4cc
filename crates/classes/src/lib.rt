// The classes of a recording's blocks: what each block is to the strong sender.
#![tactic(auto)]

pub mod class;
pub mod classify;
pub mod windows;

pub use class::{BlockClass, is_class};
pub use classify::{ClassCounts, classify_blocks, count_class, count_classes};
pub use windows::Windows;
