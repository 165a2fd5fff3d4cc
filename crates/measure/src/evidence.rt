// The evidence of a second carrier in the gaps of a strong sender. Rust: second_carrier_evidence, lines 517 to 606 of
// cancel.rs, which goes in this order:
//
//     522 to 524   the blocks' means and their classes           prepared::prepare
//     525 to 531   gap_idx, `interior`: blocks by their class    gaps::pairs, prepared::powers
//     532 to 547   `side`, `floor`, `reference`                  gaps::reference
//     548 to 569   `hot`, and the pairs with their products      gaps::pairs
//     573 to 596   `offset_hz`                                   measure::offset
//     597 to 606   the answer                                    here
ghost use Rattle.std.specs.Prelude.{◌≡◌, ◌*◌, ◌≤◌, length};
ghost use Rattle.complex.specs.Rows.{z_at};
ghost use Rattle.row.specs.Window.{step_blocks};
ghost use Rattle.elements.specs.Element.{elements_in};
ghost use Rattle.fits.specs.List.{fits_in};
ghost use Rattle.classes.specs.declared.class.BlockClass.TheVariants.{Gap, Interior};
ghost use Rattle.prepared.specs.Inner.{of_class};
ghost use Rattle.gaps.specs.Reference.{mean_at};
ghost use Rattle.measure.specs.Evidence.{hot_fraction_of, coherence_of, evidence_with, evidence_by, evidence_check_of};

use crate::offset::find_offset;
use crate::ready::{Ready, make_ready};
use fits::StrongSender;
use gaps::pairs::{Gaps, Pairs, count_gaps, sum_pairs};
use gaps::reference::find_reference;
use prepared::classed::Classed;
use row::Recording;
use trig::Sines;

// Rust: SecondCarrierEvidence.
#[derive(Clone, Copy)]
pub struct SecondCarrierEvidence {
    pub gap_blocks: usize,
    pub hot_fraction: f64,
    pub offset_hz: Option<f64>,
    pub coherence: f64,
}

// Rust: `hot_fraction` in second_carrier_evidence.
fn hot_fraction(g: Gaps) -> f64
    ensures { result ≡ hot_fraction_of g }
{
    if g.blocks == 0 {
        return 0.0;
    }
    float::from_whole(g.hot) / float::from_whole(g.blocks)
}

// Rust: `coherence` in second_carrier_evidence.
fn coherence(p: Pairs) -> f64
    ensures { result ≡ coherence_of p }
{
    if p.size > 0.0 {
        return p.sum.norm() / p.size;
    }
    0.0
}

// The evidence against a reference.
fn evidence_with(classed: &Classed, reference: f64, sine: &Sines) -> SecondCarrierEvidence
    ensures { result ≡ evidence_with (mean_at classed.now.grid.samples.iq.now classed.now.grid.blocks.fs) classed.now.grid.blocks.fs classed.now.grid.carrier
        (of_class classed.now.held.codes.now Gap) (z_at classed.now.held.means.now) classed.now.grid.blocks.count reference }
{
    let gaps = count_gaps(&classed.held, reference);
    let pairs = sum_pairs(&classed.held, reference);
    SecondCarrierEvidence {
        gap_blocks: gaps.blocks,
        hot_fraction: hot_fraction(gaps),
        offset_hz: find_offset(classed, reference, pairs, sine),
        coherence: coherence(pairs),
    }
}

// Past the block means and their classes. The powers go to what is free of the work slice.
pub fn evidence(classed: &Classed, free: &mut [f64], sine: &Sines) -> SecondCarrierEvidence
    requires { 2 * classed.now.grid.blocks.count ≤ length free.old }
    ensures { result ≡ evidence_by (mean_at classed.now.grid.samples.iq.now classed.now.grid.blocks.fs) classed.now.grid.blocks.fs classed.now.grid.carrier
        (of_class classed.now.held.codes.now Gap) (of_class classed.now.held.codes.now Interior) (z_at classed.now.held.means.now) classed.now.grid.blocks.count }
{
    let reference = find_reference(classed, free, sine);
    evidence_with(classed, reference, sine)
}

// Rust: second_carrier_evidence. The means, the classes and the powers are in the lent work slice.
// What room the slice has stands in a clause, as in fits/src/estimate.rt.
pub fn second_carrier_evidence(
    recording: &Recording,
    sender: &StrongSender,
    work: &mut [f64],
    sine: &Sines,
) -> SecondCarrierEvidence
    requires { 4 * step_blocks recording.now.samples.iq.now recording.now.rate.hz ≤ length work.old }
    ensures { result ≡ evidence_check_of recording.now.samples.iq.now recording.now.rate.hz sender.now.carrier_hz
        (fits_in sender.now.fits.numbers.now sender.now.fits.count) (elements_in sender.now.elements.numbers.now sender.now.elements.count) }
{
    let Ready { classed, free } = make_ready(recording, sender, work, sine);
    evidence(&classed, free, sine)
}
