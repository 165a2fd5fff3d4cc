// The threshold of a row of amplitudes.
ghost use Rattle.std.specs.Prelude.{◌≡◌, ◌≤◌, length, Some};
ghost use Rattle.elements.specs.Find.{half_of, row_threshold};

use constants::EDGE_PERCENTILE;
use rank::select::percentile;

// Rust: `thr` of find_elements. None where it is not positive: there the Rust answers an empty list.
pub fn half_of(top: f64) -> Option<f64>
    ensures { result ≡ half_of (Some top) }
{
    let thr = 0.5 * top;
    if thr > 0.0 { Some(thr) } else { None }
}

// Rust: `thr` of find_elements, and the two ways out about it.
pub fn row_threshold(row: &[f64]) -> Option<f64>
    requires { length row.now ≤ 2097152 }
    ensures { result ≡ row_threshold row.now }
{
    half_of(percentile(row, EDGE_PERCENTILE)?)
}
