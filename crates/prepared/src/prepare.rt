// The work slice made ready for the measures: the blocks' means at the carrier, and the number of each block's class.
// Rust: lines 483 to 485 and 492 of cancel.rs in residual_check, 522 to 524 in second_carrier_evidence.
ghost use Rattle.std.specs.Prelude.{◌≡◌, ◌*◌, ◌≤◌, length};
ghost use Rattle.float.specs.Ops.{◌⊘◌};
ghost use Rattle.row.specs.Window.{window_of, samples, blocks, step_blocks};
ghost use Rattle.row.specs.Blocks.{block_mean};
ghost use Rattle.elements.specs.Element.{elements_in};
ghost use Rattle.fits.specs.List.{fits_in};
ghost use Rattle.classes.specs.Classify.{class_of};
ghost use Rattle.prepared.specs.Inner.{Prepared};

use crate::grid::{Blocks, Grid};
use crate::sections::{CLASSES, SIDES};
use classes::classify_blocks;
use fits::StrongSender;
use row::Recording;
use trig::Sines;

// The means and the classes, each in its section; the answer is the grid of their blocks.
// What room the work slice has stands in a clause, as in fits/src/estimate.rt.
pub fn prepare<'a>(
    recording: &Recording<'a>,
    sender: &StrongSender,
    work: &mut [f64],
    sine: &Sines,
) -> Grid<'a>
    requires { 4 * step_blocks recording.now.samples.iq.now recording.now.rate.hz ≤ length work.old }
    ensures grid { (result.samples.iq.now ≡ recording.now.samples.iq.now) × (result.blocks.fs ≡ recording.now.rate.hz) × (result.carrier ≡ sender.now.carrier_hz) }
    ensures prepared { Prepared work.new (block_mean recording.now.samples.iq.now (sender.now.carrier_hz ⊘ recording.now.rate.hz) (window_of recording.now.rate.hz))
        (class_of recording.now.rate.hz (samples recording.now.samples.iq.now) (fits_in sender.now.fits.numbers.now sender.now.fits.count) (elements_in sender.now.elements.numbers.now sender.now.elements.count))
        (blocks recording.now.samples.iq.now (window_of recording.now.rate.hz)) }
{
    let rate = recording.rate;
    let window = rate.window();
    let carrier = sender.carrier_hz;
    let count = row::block_means(&recording.samples, carrier / rate.hz, window, work, sine);
    classify_blocks(
        rate,
        recording.samples.count(),
        &sender.elements,
        &sender.fits,
        &mut work[CLASSES * count..SIDES * count],
    );
    Grid {
        samples: recording.samples,
        carrier,
        blocks: Blocks {
            fs: rate.hz,
            window,
            count,
        },
    }
}
