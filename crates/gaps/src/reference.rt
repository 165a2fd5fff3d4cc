// The reference level of the evidence: what the gaps hold away from the carrier. Rust: lines 532 to 547 of cancel.rs in
// second_carrier_evidence; `interior` of line 543 is made by prepared::powers.
ghost use Rattle.std.specs.Prelude.{◌≡◌, ◌*◌, ◌≤◌, length};
ghost use Rattle.lists.specs.Count.{count_to};
ghost use Rattle.lists.specs.Those.{keep};
ghost use Rattle.row.specs.Blocks.{block_mean};
ghost use Rattle.classes.specs.declared.class.BlockClass.TheVariants.{Gap, Interior};
ghost use Rattle.complex.specs.Rows.{z_at};
ghost use Rattle.prepared.specs.Inner.{of_class};
ghost use Rattle.prepared.specs.Powers.{block_power};
ghost use Rattle.gaps.specs.Reference.{median_of, side_of, reference_by, mean_at};

use classes::BlockClass;
use constants::{MIN_POSITIVE, REFERENCE_OFFSET_HZ};
use prepared::classed::Classed;
use prepared::powers::level_of;
use rank::select::percentile;
use row::mean_from;
use trig::Sines;

// The powers of the gap blocks at cyc cycles a sample, one after the other; the answer is how many they are. Rust: the
// loop over gap_idx that fills `side`. It is not `gather` with another power: where a block starts is added up here,
// with no product, also over the blocks that are passed over.
fn gap_powers(classed: &Classed, cyc: f64, out: &mut [f64], sine: &Sines) -> usize
    requires { classed.now.grid.blocks.count ≤ length out.old }
    ensures few { result ≤ classed.now.grid.blocks.count }
    ensures kept { (result ≡ count_to (of_class classed.now.held.codes.now Gap) classed.now.grid.blocks.count)
        × (out.new ≡ keep out.old 0 (of_class classed.now.held.codes.now Gap) (block_power (block_mean classed.now.grid.samples.iq.now cyc classed.now.grid.blocks.window)) classed.now.grid.blocks.count) }
{
    let samples = classed.grid.samples;
    let len = classed.grid.blocks.window;
    let gap = f64::from(BlockClass::Gap);
    // Both by hand: n is the answer, as in `gather`, and no turn multiplies for `from`.
    let mut n: usize = 0;
    let mut from: usize = 0;
    for x in classed.held.codes {
        if *x == gap {
            out[n] = mean_from(&samples, cyc, from, len, sine).norm_sqr();
            n += 1;
        }
        from += len;
    }
    n
}

// The median of the powers of the gap blocks to both sides of the carrier. Rust: `side`.
fn side_level(classed: &Classed, out: &mut [f64], sine: &Sines) -> f64
    requires { 2 * classed.now.grid.blocks.count ≤ length out.old }
    ensures { result ≡ median_of (side_of (mean_at classed.now.grid.samples.iq.now classed.now.grid.blocks.fs) classed.now.grid.carrier (of_class classed.now.held.codes.now Gap) classed.now.grid.blocks.count) }
{
    let carrier = classed.grid.carrier;
    let fs = classed.grid.blocks.fs;
    let under = (carrier + -REFERENCE_OFFSET_HZ) / fs;
    let over = (carrier + REFERENCE_OFFSET_HZ) / fs;
    let n = gap_powers(classed, under, out, sine);
    let m = gap_powers(classed, over, &mut out[n..], sine);
    percentile(&out[..n + m], 0.5).unwrap_or(0.0)
}

// Rust: `reference` in second_carrier_evidence.
pub fn find_reference(classed: &Classed, out: &mut [f64], sine: &Sines) -> f64
    requires { 2 * classed.now.grid.blocks.count ≤ length out.old }
    ensures { result ≡ reference_by (mean_at classed.now.grid.samples.iq.now classed.now.grid.blocks.fs) classed.now.grid.carrier (of_class classed.now.held.codes.now Gap)
        (of_class classed.now.held.codes.now Interior) (z_at classed.now.held.means.now) classed.now.grid.blocks.count }
{
    let side = side_level(classed, out, sine);
    let interior = level_of(&classed.held, BlockClass::Interior, 0.5, out);
    let floor = 1e-12 * interior.value.unwrap_or(0.0);
    float::max(float::max(side, floor), MIN_POSITIVE)
}
