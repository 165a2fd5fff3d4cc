// The row of amplitudes: the size of the mean of eight neighbouring block means, by a running sum.
ghost use Rattle.std.specs.Prelude.{◌≡◌, ◌+◌, ◌-◌, ◌*◌, ◌/◌, ◌<◌, ◌≤◌, length};
ghost use Rattle.complex.specs.Rows.{z_at, z_fill};
ghost use Rattle.lists.specs.Fill.{fill};
ghost use Rattle.row.specs.Window.{blocks};
ghost use Rattle.row.specs.Blocks.{block_mean};
ghost use Rattle.row.specs.Envelope.{amplitude};
ghost use Rattle.row.specs.Inner.{moved_by};

use crate::blocks::block_means;
use crate::recording::Samples;
use complex::Complex;
use trig::Sines;

// The running sum one further: what comes in, less what goes out.
fn moved(run: Complex, row: &[f64], i: usize) -> Complex
    requires { 2 * (8 + i) + 1 < length row.now }
    ensures { result ≡ moved_by (z_at row.now) i run }
{
    let comes = complex::get(row, 8 + i);
    let goes = complex::get(row, i);
    run.add(comes.sub(goes))
}

// The b - 7 amplitudes of b complex numbers. Rust: the running sum of find_elements.
fn running(means: &[f64], b: usize, row: &mut [f64])
    requires le_b { 8 ≤ b }
    requires means_in_bounds { 2 * b ≤ length means.now }
    requires row_in_bounds { b - 7 ≤ length row.old }
    ensures { row.new ≡ fill row.old 0 (amplitude (z_at means.now)) (b - 7) }
{
    let n = b - 8;
    let mut run = complex::sum(means, 0, 8);
    for (i, amplitude) in row[..n].iter_mut().enumerate() {
        *amplitude = run.div_real(8.0).norm();
        run = moved(run, means, i);
    }
    row[n] = run.div_real(8.0).norm();
}

// The means of the blocks of `step` samples as complex numbers from the start of `work` on, and after them their row
// of amplitudes.
pub fn amplitudes(samples: &Samples, cyc: f64, step: usize, work: &mut [f64], sine: &Sines)
    requires step_nonzero { 0 < step }
    requires bound { 8 ≤ blocks samples.now.iq.now step }
    requires step_in_bounds { 3 * blocks samples.now.iq.now step ≤ length work.old }
    ensures { work.new
        ≡ fill (z_fill work.old 0 (block_mean samples.now.iq.now cyc step) (blocks samples.now.iq.now step)) (2 * blocks samples.now.iq.now step)
        (amplitude (block_mean samples.now.iq.now cyc step)) (blocks samples.now.iq.now step - 7) }
{
    let b = block_means(samples, cyc, step, work, sine);
    let (means, row) = work.split_at_mut(2 * b);
    running(means, b, row);
}
