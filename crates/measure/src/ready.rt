// What both measures begin with: the blocks of a recording, classed, in a work slice that is made ready for them.
ghost use Rattle.std.specs.Prelude.{◌≡◌, ◌*◌, ◌≤◌, length};
ghost use Rattle.row.specs.Window.{window_of, samples, blocks, step_blocks};
ghost use Rattle.elements.specs.Element.{elements_in};
ghost use Rattle.fits.specs.List.{fits_in};
ghost use Rattle.classes.specs.Classify.{class_of};
ghost use Rattle.gaps.specs.Reference.{mean_at};
ghost use Rattle.measure.specs.Inner.{Held};

use fits::StrongSender;
use prepared::classed::{Classed, ClassedMeans};
use prepared::prepare::prepare;
use prepared::sections::SIDES;
use row::Recording;
use trig::Sines;

// The blocks at the front of the work slice, and behind them what is free for a measure.
#[derive(Drop)]
pub struct Ready<'r, 'w> {
    pub classed: Classed<'r, 'w>,
    pub free: &'w mut [f64],
}

// What room the work slice has stands in a clause, as in fits/src/estimate.rt.
pub fn make_ready<'r, 'w>(
    recording: &Recording<'r>,
    sender: &StrongSender,
    work: &'w mut [f64],
    sine: &Sines,
) -> Ready<'r, 'w>
    requires { 4 * step_blocks recording.now.samples.iq.now recording.now.rate.hz ≤ length work.old }
    ensures grid { (result.classed.grid.samples.iq.now ≡ recording.now.samples.iq.now)
        × (result.classed.grid.blocks.fs ≡ recording.now.rate.hz) × (result.classed.grid.carrier ≡ sender.now.carrier_hz) }
    ensures count { result.classed.grid.blocks.count ≡ blocks recording.now.samples.iq.now (window_of recording.now.rate.hz) }
    ensures held { Held result.classed.held.means.now result.classed.held.codes.now
        (mean_at recording.now.samples.iq.now recording.now.rate.hz sender.now.carrier_hz)
        (class_of recording.now.rate.hz (samples recording.now.samples.iq.now)
        (fits_in sender.now.fits.numbers.now sender.now.fits.count) (elements_in sender.now.elements.numbers.now sender.now.elements.count))
        (blocks recording.now.samples.iq.now (window_of recording.now.rate.hz)) }
    ensures room { 3 * result.classed.grid.blocks.count ≤ length result.free.now }
{
    let grid = prepare(recording, sender, work, sine);
    let count = grid.blocks.count;
    let (front, free) = work.split_at_mut(SIDES * count);
    Ready {
        classed: Classed {
            grid,
            held: ClassedMeans::new(front, count),
        },
        free,
    }
}
