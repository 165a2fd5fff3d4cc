// The interior of an element: the whole samples at least RISE_S inside of it.
ghost use Rattle.std.specs.Prelude.{◌≡◌, ◌^◌, ◌≤◌};
ghost use Rattle.float.specs.Ops.{of};
ghost use Rattle.interiors.specs.Interior.{interior_of, slope_block, min_len};

use constants::{MIN_INTERIOR_S, RISE_S, SLOPE_BLOCK_S};
use row::Span;

// Rust: `min_len as f64` in `fit_elements`.
fn min_len(fs: f64) -> f64
    ensures { result ≡ of (min_len fs) }
{
    float::from_whole(float::to_whole(float::ceil(MIN_INTERIOR_S * fs)))
}

// Rust: `block` in `fit_elements`.
pub fn slope_block(fs: f64) -> usize
    ensures { result ≡ slope_block fs }
{
    float::to_whole(float::max(float::round(SLOPE_BLOCK_S * fs), 1.0))
}

// Rust: `lo`, `hi`, `i0` and `i1` in `fit_elements`. n is the number of samples. None where the element is too short or
// leaves the recording.
pub fn interior_of(n: usize, fs: f64, start: f64, end: f64) -> Option<Span>
    requires { n ≤ 2 ^ 20 }
    ensures { result ≡ interior_of n fs start end }
{
    let rise = RISE_S * fs;
    let lo = float::ceil(start + rise);
    let hi = float::floor(end - rise);
    if lo < 0.0 {
        return None;
    }
    if hi > float::exact(n) {
        return None;
    }
    if hi - lo < min_len(fs) {
        return None;
    }
    Some(Span {
        lo: float::to_whole(lo),
        hi: float::to_whole(hi),
    })
}
