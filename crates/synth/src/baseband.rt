// A fit's synthesis, derotated to the carrier.
ghost use Rattle.std.specs.Prelude.{◌≡◌, ◌≤◌};
ghost use Rattle.synth.specs.Baseband.{envelope_of, synth_at};

use crate::rise::rc;
use complex::Complex;
use elements::KeyedElement;
use fits::ElementFit;
use trig::{Sines, TAU};

// Rust: `env` in `synth_baseband`.
fn envelope(e: KeyedElement, fs: f64, k: usize, sine: &Sines) -> f64
    requires { k ≤ 9007199254740992 }
    ensures { result ≡ envelope_of fs e k }
{
    let at = float::exact(k);
    rc((at - e.start) / fs, sine) - rc((at - e.end) / fs, sine)
}

// Rust: synth_baseband.
pub fn synth_baseband(f: ElementFit, fs: f64, k: usize, sine: &Sines) -> Complex
    requires { k ≤ 9007199254740992 }
    ensures { result ≡ synth_at fs f k }
{
    let env = envelope(f.element, fs, k, sine);
    if env == 0.0 {
        return Complex::ZERO;
    }
    let tilt = float::rem_euclid(
        f.slope_rad_per_sample * (float::exact(k) - f.ref_sample),
        TAU,
    );
    f.gain.mul(Complex::from_polar(env, tilt, sine))
}
