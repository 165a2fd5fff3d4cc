// A stretch of a recording.

// The samples from lo up to, not including, hi.
#[derive(Clone, Copy)]
pub struct Span {
    pub lo: usize,
    pub hi: usize,
}
