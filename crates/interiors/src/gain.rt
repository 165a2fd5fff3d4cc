// The gain of an interior: the Hann-weighted mean of its derotated samples, with the slope removed.
ghost use Rattle.std.specs.Prelude.{◌≡◌, ◌^◌, ◌≤◌};
ghost use Rattle.interiors.specs.Gain.{hann, tilt_of, gain_sum, hann_sum};
ghost use Rattle.interiors.specs.Inner.{leveled_by};

use crate::kept::Kept;
use complex::Complex;
use trig::{Sines, TAU};

// Rust: `w` in `fit_elements`.
fn hann_weight(len: usize, j: usize, sine: &Sines) -> f64
    requires { (len ≤ 2 ^ 20) × (j ≤ 2 ^ 20) }
    ensures { result ≡ hann len j }
{
    0.5 - 0.5 * sine.cos(TAU * (float::exact(j) + 0.5) / float::exact(len))
}

// Rust: `tilt` in `fit_elements`.
fn tilt(slope: f64, reference: f64, k: usize) -> f64
    requires { k ≤ 2 ^ 20 }
    ensures { result ≡ tilt_of slope reference k }
{
    float::rem_euclid(-slope * (float::exact(k) - reference), TAU)
}

// The term of sample k, whose derotated value is z, with its weight w.
fn leveled_at(z: Complex, k: usize, w: f64, slope: f64, reference: f64, sine: &Sines) -> Complex
    requires { k ≤ 2 ^ 20 }
    ensures { result ≡ leveled_by slope reference k w z }
{
    let t = tilt(slope, reference, k);
    z.mul(Complex::from_polar(w, t, sine))
}

// The sums of the terms and of their weights.
#[derive(Clone, Copy)]
pub struct Weighed {
    pub sum: Complex,
    pub weight: f64,
}

// Rust: the loop over the samples in `fit_elements`, whose k is i0 + j. It goes over numbers: the sample's number j
// goes into its Hann weight, and the samples past those that are kept lie in no slice.
pub fn weigh(kept: &Kept, slope: f64, reference: f64, sine: &Sines) -> Weighed
    ensures { let s = kept.now.stretch in (result.sum ≡ gain_sum s.samples.iq.now s.cyc s.i0 s.len slope reference)
        × (result.weight ≡ hann_sum s.len) }
{
    let i0 = kept.stretch.i0;
    let len = kept.stretch.len;
    let mut sum = Complex::ZERO;
    let mut weight = 0.0;
    for j in 0..len {
        let w = hann_weight(len, j, sine);
        let z = kept.derotated(j, sine);
        sum = sum.add(leveled_at(z, i0 + j, w, slope, reference, sine));
        weight = weight + w;
    }
    Weighed { sum, weight }
}
