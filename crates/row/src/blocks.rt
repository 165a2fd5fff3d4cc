// A recording derotated by a carrier, and its means over blocks. A carrier enters as cycles per sample. It comes beside
// the samples, and not as one value with them: each function here that takes both is a line or a loop over the next.
ghost use Rattle.std.specs.Prelude.{◌≡◌, ℕ, ◌+◌, ◌*◌, ◌^◌, ◌<◌, ◌≤◌, length};
ghost use Rattle.complex.specs.declared.value.Complex.{Complex};
ghost use Rattle.complex.specs.Rows.{z_fill};
ghost use Rattle.row.specs.Window.{blocks};
ghost use Rattle.row.specs.Blocks.{rotor_of, derot, mean_from, block_mean};
ghost use Rattle.row.specs.Inner.{still_turn, mean_times, mean_of, Gives};

use crate::recording::Samples;
use complex::Complex;
use trig::{Sines, TAU};

// Rust: rotor. The sine table is lent, so that it is made once and not at each call. Compiled into the loops over the
// samples: as a call it takes half as long again.
#[inline(always)]
pub fn rotor(cyc: f64, k: usize, sine: &Sines) -> Complex
    requires { k ≤ 2 ^ 53 }
    ensures { result ≡ rotor_of cyc k }
{
    let p = sine.sin_cos(float::rem_one(cyc * float::exact(k)) * TAU);
    Complex {
        re: p.cos,
        im: p.sin,
    }
}

// Rust: derotated, which divides the carrier by fs anew for each sample.
pub fn derotated(samples: &Samples, cyc: f64, k: usize, sine: &Sines) -> Complex
    requires { 2 * k + 1 < length samples.now.iq.now }
    ensures { result ≡ derot samples.now.iq.now cyc k }
{
    samples.sample(k).mul(rotor(cyc, k, sine).conj())
}

// What every sample is multiplied by at carrier 0, where the rotor is (1, 0) at each: no table is read for it.
fn still_turn() -> Complex
    ensures { result ≡ still_turn }
{
    Complex::new(1.0, 0.0).conj()
}

// The mean of what `turned` gives for the len samples from sample a.
fn mean<F: Fn(usize) -> Complex>(a: usize, len: usize, turned: F) -> Complex
    requires len_bound { a + len ≤ 2 ^ 53 }
    requires turned_callable { (k : ℕ) → k < a + len → F.pre turned k }
    ensures { (f : ℕ → Complex) → Gives (F.post turned) (a + len) f → result ≡ mean_of f a len }
{
    let e = a + len;
    let mut sum = Complex::ZERO;
    // k is the sample's number: `turned` makes the rotor of it.
    for k in a..e {
        sum = sum.add(turned(k));
    }
    sum.div_real(float::exact(len))
}

// The mean of the len samples from sample a, each times z.
fn mean_times(samples: &Samples, z: Complex, a: usize, len: usize) -> Complex
    requires { 2 * (a + len) ≤ length samples.now.iq.now }
    ensures { result ≡ mean_times samples.now.iq.now z a len }
{
    mean(a, len, |k| samples.sample(k).mul(z))
}

// The mean of the len derotated samples from sample a.
fn mean_turned(samples: &Samples, cyc: f64, a: usize, len: usize, sine: &Sines) -> Complex
    requires { 2 * (a + len) ≤ length samples.now.iq.now }
    ensures { result ≡ mean_from samples.now.iq.now cyc a len }
{
    mean(a, len, |k| derotated(samples, cyc, k, sine))
}

// The same. Rust: the inner loop of block_means. At carrier 0 no sample has a sine and a cosine of its own; the product
// stays, so that the answer is the same to the bit.
pub fn mean_from(samples: &Samples, cyc: f64, a: usize, len: usize, sine: &Sines) -> Complex
    requires { 2 * (a + len) ≤ length samples.now.iq.now }
    ensures { result ≡ mean_from samples.now.iq.now cyc a len }
{
    if cyc == 0.0 {
        mean_times(samples, still_turn(), a, len)
    } else {
        mean_turned(samples, cyc, a, len, sine)
    }
}

// What `mean` gives for the n blocks of len samples, by the sample that each starts at, as complex numbers from the
// start of `out` on. Where a block starts is added up: no turn multiplies for it.
fn means<F: Fn(usize) -> Complex>(out: &mut [f64], n: usize, len: usize, mean: F)
    requires room { 2 * n ≤ length out.old }
    requires starts_bound { n * len ≤ 2 ^ 53 }
    requires mean_callable { (b : ℕ) → b < n → F.pre mean (b * len) }
    ensures { (f : ℕ → Complex) → Gives (λ b z. F.post mean (b * len) z) n f → out.new ≡ z_fill out.old 0 f n }
{
    let mut from: usize = 0;
    // b is the number's place in `out`: of pairs that chunks_exact_mut or as_chunks_mut lends nothing is known once they
    // are back.
    for b in 0..n {
        let m = mean(from);
        complex::put(out, b, m);
        from = from + len;
    }
}

// Rust: block_means. The means go into a lent slice, as complex numbers from its start on; the answer is their number.
pub fn block_means(samples: &Samples, cyc: f64, len: usize, out: &mut [f64], sine: &Sines) -> usize
    requires len_nonzero { 0 < len }
    requires len_in_bounds { 2 * blocks samples.now.iq.now len ≤ length out.old }
    ensures { (result ≡ blocks samples.now.iq.now len)
        × (out.new ≡ z_fill out.old 0 (block_mean samples.now.iq.now cyc len) (blocks samples.now.iq.now len)) }
{
    // A copy, so that where the samples lie is not read anew after each store.
    let samples = *samples;
    let n = samples.count() / len;
    if cyc == 0.0 {
        let z = still_turn();
        means(out, n, len, |a| mean_times(&samples, z, a, len));
    } else {
        means(out, n, len, |a| mean_turned(&samples, cyc, a, len, sine));
    }
    n
}
