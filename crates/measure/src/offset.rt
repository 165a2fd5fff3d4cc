// The offset of a second carrier from the strong one, by the pairs of gap blocks. Rust: lines 573 to 596 of cancel.rs
// in second_carrier_evidence.
ghost use Rattle.std.specs.Prelude.{◌≡◌, cond};
ghost use Rattle.std.specs.Float.Ieee.{lt};
ghost use Rattle.float.specs.Ops.{◌⊘◌, of, minus_zero};
ghost use Rattle.lists.specs.Sums.{sum_over};
ghost use Rattle.complex.specs.Rows.{z_at};
ghost use Rattle.row.specs.Window.{window_of};
ghost use Rattle.row.specs.Blocks.{block_mean};
ghost use Rattle.classes.specs.declared.class.BlockClass.TheVariants.{Gap};
ghost use Rattle.prepared.specs.Inner.{of_class};
ghost use Rattle.prepared.specs.Powers.{block_power};
ghost use Rattle.gaps.specs.Pairs.{above, strong, pair_blocks};
ghost use Rattle.measure.specs.Offset.{power_at, strongest, offset_from};
ghost use Rattle.gaps.specs.Reference.{mean_at};

use constants::PAIR_FACTOR;
use gaps::pairs::{AtLevel, Pairs};
use prepared::classed::Classed;
use row::mean_from;
use trig::{Sines, TAU};

// An offset with the power that the blocks in pairs have there.
#[derive(Clone, Copy)]
pub struct Candidate {
    pub hz: f64,
    pub power: f64,
}

// The sum of the powers, at cyc cycles a sample, of the blocks in pairs. The start is raised for the others too: so no
// turn multiplies for it, and no `filter` takes them out.
fn paired_power(classed: &Classed, cyc: f64, level: f64, sine: &Sines) -> f64
    ensures { result ≡ sum_over (block_power (block_mean classed.now.grid.samples.iq.now cyc classed.now.grid.blocks.window)) minus_zero
        (pair_blocks (above (of_class classed.now.held.codes.now Gap) (z_at classed.now.held.means.now) level) classed.now.grid.blocks.count) }
{
    let samples = classed.grid.samples;
    let len = classed.grid.blocks.window;
    let strong = AtLevel {
        held: classed.held,
        level,
    };
    let mut sum = -0.0;
    let mut from: usize = 0;
    for b in 0..classed.grid.blocks.count {
        if strong.in_pair(b) {
            sum += mean_from(&samples, cyc, from, len, sine).norm_sqr();
        }
        from += len;
    }
    sum
}

// Rust: `power` in second_carrier_evidence, with the offset it is of.
fn measured(classed: &Classed, level: f64, f: f64, sine: &Sines) -> Candidate
    ensures { (result.hz ≡ f) × (result.power ≡ power_at (mean_at classed.now.grid.samples.iq.now classed.now.grid.blocks.fs) classed.now.grid.carrier
        (pair_blocks (above (of_class classed.now.held.codes.now Gap) (z_at classed.now.held.means.now) level) classed.now.grid.blocks.count) f) }
{
    let cyc = (classed.grid.carrier + f) / classed.grid.blocks.fs;
    Candidate {
        hz: f,
        power: paired_power(classed, cyc, level, sine),
    }
}

// The later one only when it is strictly stronger.
fn stronger(best: Candidate, next: Candidate) -> Candidate
    ensures { result ≡ cond (lt best.power next.power) next best }
{
    if next.power > best.power { next } else { best }
}

// Rust: the loop over `[f0 - rate, f0 + rate]`.
fn strongest(classed: &Classed, level: f64, f0: f64, rate: f64, sine: &Sines) -> f64
    ensures { result ≡ strongest (power_at (mean_at classed.now.grid.samples.iq.now classed.now.grid.blocks.fs) classed.now.grid.carrier
        (pair_blocks (above (of_class classed.now.held.codes.now Gap) (z_at classed.now.held.means.now) level) classed.now.grid.blocks.count)) f0 rate }
{
    let first = measured(classed, level, f0, sine);
    let under = measured(classed, level, f0 - rate, sine);
    let over = measured(classed, level, f0 + rate, sine);
    stronger(stronger(first, under), over).hz
}

// Rust: `offset_hz` in second_carrier_evidence.
pub fn find_offset(classed: &Classed, reference: f64, pairs: Pairs, sine: &Sines) -> Option<f64>
    ensures { result ≡ offset_from (mean_at classed.now.grid.samples.iq.now classed.now.grid.blocks.fs) classed.now.grid.carrier
        (classed.now.grid.blocks.fs ⊘ of (window_of classed.now.grid.blocks.fs)) pairs
        (pair_blocks (strong (of_class classed.now.held.codes.now Gap) (z_at classed.now.held.means.now) reference) classed.now.grid.blocks.count) }
{
    if pairs.count == 0 {
        return None;
    }
    let rate = classed.grid.blocks.fs / float::from_whole(classed.grid.blocks.window);
    let f0 = pairs.sum.arg() * rate / TAU;
    let level = PAIR_FACTOR * reference;
    Some(strongest(classed, level, f0, rate, sine))
}
