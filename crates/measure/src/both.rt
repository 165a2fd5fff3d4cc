// Both measures at an estimate, from one preparation of the work slice.
ghost use Rattle.std.specs.Prelude.{◌≡◌, ◌*◌, ◌≤◌, length};
ghost use Rattle.row.specs.Window.{step_blocks};
ghost use Rattle.elements.specs.Element.{elements_in};
ghost use Rattle.fits.specs.List.{fits_in};
ghost use Rattle.measure.specs.Both.{measures_of};

use crate::evidence::{SecondCarrierEvidence, evidence};
use crate::ready::{Ready, make_ready};
use crate::residual::{ResidualCheck, residual};
use classes::{ClassCounts, count_classes};
use fits::StrongSender;
use row::Recording;
use trig::Sines;

// The blocks, how many have each class, and both measures.
#[derive(Clone, Copy)]
pub struct Measures {
    pub blocks: usize,
    pub classes: ClassCounts,
    pub residual: ResidualCheck,
    pub evidence: SecondCarrierEvidence,
}

// Rust: residual_check and second_carrier_evidence, which make the block means and the classes once each. Both only
// read what is prepared.
// What room the work slice has stands in a clause, as in fits/src/estimate.rt.
pub fn measure_both(
    recording: &Recording,
    sender: &StrongSender,
    work: &mut [f64],
    sine: &Sines,
) -> Measures
    requires { 4 * step_blocks recording.now.samples.iq.now recording.now.rate.hz ≤ length work.old }
    ensures { result ≡ measures_of recording.now.samples.iq.now recording.now.rate.hz sender.now.carrier_hz
        (fits_in sender.now.fits.numbers.now sender.now.fits.count) (elements_in sender.now.elements.numbers.now sender.now.elements.count) }
{
    let Ready { classed, free } = make_ready(recording, sender, work, sine);
    let blocks = classed.grid.blocks;
    Measures {
        blocks: blocks.count,
        classes: count_classes(classed.held.codes),
        residual: residual(blocks, &classed.held, &sender.fits, free, sine),
        evidence: evidence(&classed, free, sine),
    }
}
