// The raised-cosine step that a keyed carrier rises and falls by.
ghost use Rattle.std.specs.Prelude.{◌≡◌};
ghost use Rattle.synth.specs.Rise.{rc_of};

use constants::RISE_S;
use trig::{PI, Sines};

// Rust: rc.
pub fn rc(t: f64, sine: &Sines) -> f64
    ensures { result ≡ rc_of t }
{
    if t <= -RISE_S / 2.0 {
        0.0
    } else if t >= RISE_S / 2.0 {
        1.0
    } else {
        0.5 + 0.5 * sine.sin(PI * t / RISE_S)
    }
}
