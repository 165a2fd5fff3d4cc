// The square root of an f64, rounded to nearest.
#![tactic(auto)]

ghost use Rattle.std.specs.Prelude.{◌≡◌};
ghost use Rattle.std.specs.Float.{binary64};
ghost use Rattle.float.specs.Root.{sqrt_of};

// Rust: f64::sqrt, one instruction of the machine.
#[tactic(auto, using(float::proofs::Sqrt::sqrt_is))]
pub fn sqrt(x: f64) -> f64
    ensures { result ≡ sqrt_of binary64 x }
{
    x.sqrt()
}
