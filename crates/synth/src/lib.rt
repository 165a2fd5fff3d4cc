// What a fit says the sender sent, sample by sample, and its removal from a buffer: cancel.rs's rc, fit_span,
// synth_baseband and the work of subtract.
#![tactic(auto)]

pub mod baseband;
pub mod removal;
pub mod rise;
pub mod span;

pub use baseband::synth_baseband;
pub use removal::subtract;
pub use row::Span;
pub use span::fit_span;
