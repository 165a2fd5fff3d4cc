// A number that may be absent, as two figures.
ghost use Rattle.std.specs.Prelude.{◌≡◌};
ghost use Rattle.figures.specs.Optional.{present_of, value_of};

use crate::flag::flag;

// 1.0 where it is present, 0.0 where it is absent.
pub fn present(x: Option<f64>) -> f64
    ensures { result ≡ present_of x }
{
    flag(x.is_some())
}

// The number, 0.0 where it is absent.
pub fn value(x: Option<f64>) -> f64
    ensures { result ≡ value_of x }
{
    x.unwrap_or(0.0)
}
