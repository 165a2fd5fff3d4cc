// The argument of a complex number, by a table of 65 arctangents.
ghost use Rattle.std.specs.Prelude.{◌≡◌, ◌<◌, ◌≤◌};
ghost use Rattle.std.specs.Float.Ieee.{to_unsigned};
ghost use Rattle.trig.specs.Argument.{ratio_of, nearest_step, away_of, small_arctan, arctan_at, arctan_of, reflected, arg_of};

use crate::choice::pick;
use crate::consts::PI;
use crate::table::arctan_at;
use float::TWO_52;

fn small_arctan(u: f64) -> f64
    ensures { result ≡ small_arctan u }
{
    u - u * u * u / 3.0 + u * u * u * u * u / 5.0 - u * u * u * u * u * u * u / 7.0
}

fn away(t: f64, c: f64) -> f64
    ensures { result ≡ away_of t c }
{
    (t - c) / (1.0 + t * c)
}

// An entry of the table, over 2^52.
fn entry(j: usize) -> f64
    requires { j < 65 }
    ensures { result ≡ arctan_at j }
{
    float::exact(arctan_at(j) as usize) / TWO_52
}

// The arctangent of t by the nearest 64th.
fn arctan(t: f64) -> f64
    requires { to_unsigned 64 (nearest_step t) ≤ 64 }
    ensures { result ≡ arctan_of t }
{
    let j = float::round(64.0 * t);
    let u = away(t, j / 64.0);
    entry(float::to_whole(j)) + small_arctan(u)
}

fn nonzero(re: f64, im: f64) -> f64
    ensures { result ≡ reflected re im (arctan_of (ratio_of re im)) }
{
    let a = float::abs(re);
    let b = float::abs(im);
    let v = arctan(pick(a < b, a / b, b / a));
    let w = pick(a < b, PI / 2.0 - v, v);
    let z = pick(re < 0.0, PI - w, w);
    pick(im < 0.0, -z, z)
}

// Rust: Complex::arg, by f64::atan2.
pub fn arg(re: f64, im: f64) -> f64
    ensures { result ≡ arg_of re im }
{
    if re == 0.0 {
        if im == 0.0 {
            return 0.0;
        }
    }
    nonzero(re, im)
}
