// The cosine and the sine of angles as complex numbers.
ghost use Rattle.std.specs.Prelude.{◌≡◌, ◌/◌, ◌≤◌, min, length};
ghost use Rattle.complex.specs.Rows.{z_fill};
ghost use Rattle.complex.specs.Units.{unit_of, unit_at};

use crate::rows::put;
use crate::value::Complex;
use trig::Sines;

fn unit(x: f64, sine: &Sines) -> Complex
    ensures { result ≡ unit_of x }
{
    let p = sine.sin_cos(x);
    Complex {
        re: p.cos,
        im: p.sin,
    }
}

// The cosine and the sine of each angle, as complex numbers of `out`, for as many angles as have room there; their
// number.
pub fn cos_sin(angles: &[f64], out: &mut [f64], sine: &Sines) -> usize
    ensures { (result ≡ min (length angles.now) (length out.old / 2))
        × (out.new ≡ z_fill out.old 0 (unit_at angles.now) (min (length angles.now) (length out.old / 2))) }
{
    let n = angles.len().min(out.len() / 2);
    // By their number: of pairs that chunks_exact_mut or as_chunks_mut lends nothing is known once they are back.
    for (k, angle) in angles[..n].iter().enumerate() {
        put(out, k, unit(*angle, sine));
    }
    n
}
