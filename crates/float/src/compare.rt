// The size of a number, and the larger of two.
ghost use Rattle.std.specs.Prelude.{◌≡◌};
ghost use Rattle.float.specs.Compare.{abs_of, max_of};

// Rust: f64::abs. 0.0 - x has its sign clear for either zero.
// std's promises the same, and takes a comparison more.
pub fn abs(x: f64) -> f64
    ensures { result ≡ abs_of x }
{
    if x > 0.0 { x } else { 0.0 - x }
}

// Rust: f64::max. std's promises either of two zeros, and `max_of` says which.
#[tactic(auto, unfolding(crate::specs::Compare::max_of))]
pub fn max(a: f64, b: f64) -> f64
    ensures { result ≡ max_of a b }
{
    if a.is_nan() || a < b { b } else { a }
}
