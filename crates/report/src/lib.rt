// The report on a recording that comes as bytes.
#![tactic(auto)]

pub mod answer;

pub use answer::{ROOM, report, report_read};
