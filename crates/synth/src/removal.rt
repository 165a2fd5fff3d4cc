// The removal of a list of fits from a buffer: the work of the Rust's subtract.
ghost use Rattle.std.specs.Prelude.{◌≡◌, ◌+◌, ◌*◌, ◌/◌, ◌<◌, ◌≤◌, length};
ghost use Rattle.float.specs.Ops.{◌⊘◌};
ghost use Rattle.complex.specs.Rows.{z_at, z_set};
ghost use Rattle.fits.specs.List.{fits_in};
ghost use Rattle.synth.specs.Removal.{less_single, sent_at, subtracted};
ghost use Rattle.synth.specs.Inner.{less_part};

use crate::baseband::synth_baseband;
use crate::span::fit_span;
use complex::Complex;
use fits::{ElementFit, Fits, fit_at};
use trig::Sines;

// Rust: `s` in `subtract`.
fn sent_at(f: ElementFit, fs: f64, cyc: f64, k: usize, sine: &Sines) -> Complex
    requires { k ≤ 9007199254740992 }
    ensures { result ≡ sent_at fs cyc f k }
{
    synth_baseband(f, fs, k, sine).mul(row::rotor(cyc, k, sine))
}

// Sample j of a part less s. A NaN and the infinities are samples too: an earlier fit may have left them.
fn subtract_at(part: &mut [f32], j: usize, s: Complex)
    requires { 2 * j + 1 < length part.old }
    ensures { part.new ≡ z_set part.old j (less_single (z_at part.old j) s) }
{
    let i = 2 * j;
    let re = part[i] - float::narrow(s.re);
    let im = part[i + 1] - float::narrow(s.im);
    part[i] = re;
    part[i + 1] = im;
}

// Rust: the inner loop of subtract, over the part of the buffer that the fit's span covers. The part's first sample is
// number lo of the recording.
fn subtract_span(part: &mut [f32], lo: usize, f: ElementFit, fs: f64, cyc: f64, sine: &Sines)
    requires { lo + length part.old ≤ 9007199254740992 }
    ensures { part.new ≡ less_part fs cyc f lo part.old (length part.old / 2) }
{
    let n = part.len() / 2;
    // j is the sample's number. Of pairs that chunks_exact_mut lends nothing is known once they are back.
    for j in 0..n {
        let s = sent_at(f, fs, cyc, lo + j, sine);
        subtract_at(part, j, s);
    }
}

// Rust: subtract. Each fit works on the part of the buffer that its span covers.
#[tactic(auto, using(crate::proofs::Spans::span_within))]
pub fn subtract(buf: &mut [f32], fs: f64, carrier: f64, fits: &Fits, sine: &Sines)
    requires { length buf.old ≤ 2097152 }
    ensures { buf.new ≡ subtracted fs (carrier ⊘ fs) buf.old (fits_in fits.now.numbers.now fits.now.count) }
{
    let cyc = carrier / fs;
    let n = buf.len() / 2;
    for place in fits.each() {
        let f = fit_at(place, 0);
        let span = fit_span(f, fs, n);
        let a = 2 * span.lo;
        let e = 2 * span.hi;
        subtract_span(&mut buf[a..e], span.lo, f, fs, cyc, sine);
    }
}
