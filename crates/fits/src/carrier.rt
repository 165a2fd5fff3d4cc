// The mean slope of a list of fits.
ghost use Rattle.std.specs.Prelude.{◌≡◌};
ghost use Rattle.float.specs.Ops.{plus_zero};
ghost use Rattle.fits.specs.List.{fits_in};
ghost use Rattle.fits.specs.Carrier.{fit_weight, weighted_slope, mean_slope};
ghost use Rattle.lists.specs.Sums.{sum_over};

use crate::fit::ElementFit;
use crate::list::{Fits, fit_at};
use constants::RISE_S;
use trig::TAU;

// Rust: `w` in `mean_slope_hz`.
fn fit_weight(f: ElementFit, fs: f64) -> f64
    ensures { result ≡ fit_weight fs f }
{
    let e = f.element;
    float::max(e.end - e.start - 2.0 * RISE_S * fs, 0.0) * f.gain.norm()
}

// The sums of the weighted slopes and of the weights.
#[derive(Clone, Copy)]
pub struct Slopes {
    pub num: f64,
    pub den: f64,
}

fn sum_slopes(fits: &Fits, fs: f64) -> Slopes
    ensures { let all = fits_in fits.now.numbers.now fits.now.count in (result.num ≡ sum_over (weighted_slope fs) plus_zero all)
        × (result.den ≡ sum_over (fit_weight fs) plus_zero all) }
{
    let mut num = 0.0;
    let mut den = 0.0;
    for place in fits.each() {
        let f = fit_at(place, 0);
        let w = fit_weight(f, fs);
        num = num + w * f.slope_rad_per_sample;
        den = den + w;
    }
    Slopes { num, den }
}

// Rust: mean_slope_hz.
pub fn mean_slope_hz(fits: &Fits, fs: f64) -> f64
    ensures { result ≡ mean_slope fs (fits_in fits.now.numbers.now fits.now.count) }
{
    let s = sum_slopes(fits, fs);
    if s.den > 0.0 {
        s.num / s.den * fs / TAU
    } else {
        0.0
    }
}
