// What is left of the blocks' means once the fits are subtracted. Rust: lines 486 to 491 of cancel.rs, the loop over
// the fits in residual_check, which finds each sample's block by a division; here each block of a span is done at one
// go.
ghost use Rattle.std.specs.Prelude.{◌≡◌, ℕ, ◌+◌, ◌*◌, ◌≤◌, ◌<◌, length, drop};
ghost use Rattle.complex.specs.Rows.{z_at};
ghost use Rattle.fits.specs.List.{fits_in};
ghost use Rattle.prepared.specs.Left.{less_span, less_fit, less_fits};

use crate::grid::Blocks;
use complex::{Complex, get, put};
use fits::{ElementFit, Fits, fit_at};
use row::copy;
use synth::{Span, fit_span, synth_baseband};
use trig::Sines;

// The mean of the block that starts at sample `from`, less a fit's synthesis at those of the block's samples that the
// fit's span covers.
fn subtract_covered(
    blocks: Blocks,
    z: Complex,
    f: ElementFit,
    s: Span,
    from: usize,
    sine: &Sines,
) -> Complex
    requires { from + blocks.window ≤ 1048576 }
    ensures { result ≡ less_span blocks.fs blocks.window f s from z }
{
    let fs = blocks.fs;
    let len = blocks.window;
    let a = s.lo.max(from);
    let e = s.hi.min(from + len);
    let d = float::exact(len);
    // Over the samples' numbers, by which the synthesis is asked: a `fold` over them is no plainer.
    let mut left = z;
    for k in a..e {
        left = left.sub(synth_baseband(f, fs, k, sine).div_real(d));
    }
    left
}

// The means of a row less one fit. Rust: the body of the loop over the fits. The first block is the one that holds the
// span's first sample.
fn subtract_fit(blocks: Blocks, f: ElementFit, row: &mut [f64], sine: &Sines)
    requires { 2 * blocks.count ≤ length row.old }
    ensures { (b : ℕ) → b < blocks.count
        → z_at row.new b ≡ less_fit blocks.fs blocks.window blocks.count f b (z_at row.old b) }
{
    let len = blocks.window;
    let s = fit_span(f, blocks.fs, blocks.count * len);
    // A block's number says where its mean stands; its start is added up, so that no turn multiplies for it.
    let mut from = s.lo - s.lo % len;
    for b in s.lo / len..s.hi.div_ceil(len) {
        let z = get(row, b);
        put(row, b, subtract_covered(blocks, z, f, s, from, sine));
        from += len;
    }
}

// What is left of the means less all fits of a list, in order. What lies behind them is not touched.
pub fn subtract_from_means(
    blocks: Blocks,
    means: &[f64],
    fits: &Fits,
    left: &mut [f64],
    sine: &Sines,
)
    requires means { 2 * blocks.count ≤ length means.now }
    requires room { 2 * blocks.count ≤ length left.old }
    ensures less { (b : ℕ) → b < blocks.count
        → z_at left.new b ≡ less_fits blocks.fs blocks.window blocks.count (fits_in fits.now.numbers.now fits.now.count) b (z_at means.now b) }
    ensures behind { drop (2 * blocks.count) left.new ≡ drop (2 * blocks.count) left.old }
{
    let numbers = 2 * blocks.count;
    let row = &mut left[..numbers];
    copy(&means[..numbers], row);
    for place in fits.each() {
        subtract_fit(blocks, fit_at(place, 0), row, sine);
    }
}
