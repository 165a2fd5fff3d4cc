// The phase slope of an interior, from the phases of its block means.
ghost use Rattle.std.specs.Prelude.{◌≡◌, ◌+◌, ◌*◌, ◌/◌, ◌≤◌, length};
ghost use Rattle.complex.specs.Value.{c_new, c_norm};
ghost use Rattle.complex.specs.Rows.{z_fill};
ghost use Rattle.interiors.specs.Slope.{slope_mean, phase_on, slope_of};
ghost use Rattle.interiors.specs.Inner.{point_of};

use crate::kept::Kept;
use crate::line::Points;
use complex::Complex;
use trig::Sines;

// The mean of the samples of block b. A block that is not kept whole is derotated.
fn slope_mean(kept: &Kept, block: usize, b: usize, sine: &Sines) -> Complex
    requires { b * block + block ≤ kept.now.stretch.len }
    ensures { let s = kept.now.stretch in result ≡ slope_mean s.samples.iq.now s.cyc s.i0 block b }
{
    let first = b * block;
    if first + block <= kept.count() {
        return complex::sum(kept.numbers, first, block).div_real(float::exact(block));
    }
    let stretch = &kept.stretch;
    row::mean_from(
        &stretch.samples,
        stretch.cyc,
        stretch.i0 + first,
        block,
        sine,
    )
}

fn phase_on(phase: f64, before: Complex, next: Complex) -> f64
    ensures { result ≡ phase_on phase before next }
{
    phase + next.mul(before.conj()).arg()
}

// A point: the phase, and the weight.
fn point(phase: f64, mean: Complex) -> Complex
    ensures { result ≡ c_new phase (c_norm mean) }
{
    Complex {
        re: phase,
        im: mean.norm(),
    }
}

// The points of the slope fit go into a lent slice, from its start on, a pair of numbers for each block.
// Rust: the loop over the blocks in `fit_elements`, which keeps the times too.
fn unwrap_phase(kept: &Kept, block: usize, points: &mut [f64], sine: &Sines)
    requires some { 1 ≤ length points.old / 2 }
    requires within { length points.old / 2 * block ≤ kept.now.stretch.len }
    ensures { let s = kept.now.stretch in points.new ≡ z_fill points.old 0 (point_of (slope_mean s.samples.iq.now s.cyc s.i0 block)) (length points.old / 2) }
{
    let n = points.len() / 2;
    let mut mean = slope_mean(kept, block, 0, sine);
    let mut phase = mean.arg();
    complex::put(points, 0, point(phase, mean));
    // b is the block's number. Of pairs that chunks_exact_mut lends nothing is known once they are back.
    for b in 1..n {
        let next = slope_mean(kept, block, b, sine);
        phase = phase_on(phase, mean, next);
        complex::put(points, b, point(phase, next));
        mean = next;
    }
}

// Rust: `slope` in `fit_elements`. The points go to the start of a lent slice, a pair of numbers for each block. Fewer
// than two points need no work: their slope is 0.
pub fn phase_slope(kept: &Kept, block: usize, points: &mut [f64], sine: &Sines) -> f64
    requires le_block { 1 ≤ block }
    requires block_in_bounds { 2 * (kept.now.stretch.len / block) ≤ length points.old }
    ensures { let s = kept.now.stretch in result ≡ slope_of s.samples.iq.now s.cyc s.i0 s.len block }
{
    let n = kept.stretch.len / block;
    if n < 2 {
        return 0.0;
    }
    let own = &mut points[..2 * n];
    unwrap_phase(kept, block, own, sine);
    let line = Points {
        numbers: own,
        i0: kept.stretch.i0,
        block,
    };
    line.slope()
}
