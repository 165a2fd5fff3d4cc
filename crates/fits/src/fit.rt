// The fit of one element.
ghost use Rattle.std.specs.Prelude.{◌≡◌, ◌-◌, ◌*◌, ◌/◌, ◌≤◌, ◌<◌, length};
ghost use Rattle.row.specs.Window.{step_blocks};
ghost use Rattle.fits.specs.Fit.{fit_inside, fit_of};
ghost use Rattle.fits.specs.Inner.{Timed};

use complex::Complex;
use elements::KeyedElement;
use interiors::gain::weigh;
use interiors::interior::{interior_of, slope_block};
use interiors::kept::Kept;
use interiors::slope::phase_slope;
use interiors::stretch::Stretch;
use row::{Recording, Samples, Span};
use trig::Sines;

// Rust: ElementFit.
#[derive(Clone, Copy)]
pub struct ElementFit {
    pub element: KeyedElement,
    pub gain: Complex,
    pub slope_rad_per_sample: f64,
    pub ref_sample: f64,
}

// Rust: `fit_elements`, of one element with its interior. None where it is skipped. The work slice has the points of
// the slope fit at its start, and kept samples behind them.
fn fit_inside(
    samples: &Samples,
    cyc: f64,
    block: usize,
    e: KeyedElement,
    inside: Span,
    work: &mut [f64],
    sine: &Sines,
) -> Option<ElementFit>
    requires some { inside.lo < inside.hi }
    requires within { 2 * inside.hi ≤ length samples.now.iq.now }
    requires le_block { 1 ≤ block }
    requires room { 2 * ((inside.hi - inside.lo) / block) ≤ length work.old }
    ensures { result ≡ fit_inside samples.now.iq.now cyc block e inside.lo inside.hi }
{
    let len = inside.hi - inside.lo;
    let reference = float::exact(inside.lo + inside.hi - 1) / 2.0;
    let stretch = Stretch {
        samples: *samples,
        cyc,
        i0: inside.lo,
        len,
    };
    let (points, room) = work.split_at_mut(2 * (len / block));
    let kept = Kept::new(stretch, room, sine);
    let slope = phase_slope(&kept, block, points, sine);
    let w = weigh(&kept, slope, reference, sine);
    if w.weight <= 0.0 {
        return None;
    }
    Some(ElementFit {
        element: e,
        gain: w.sum.div_real(w.weight),
        slope_rad_per_sample: slope,
        ref_sample: reference,
    })
}

// Rust: `fit_elements`, of one element.
pub fn fit_one(
    recording: &Recording,
    cyc: f64,
    e: KeyedElement,
    work: &mut [f64],
    sine: &Sines,
) -> Option<ElementFit>
    requires timed { Timed e }
    requires work_room { 4 * step_blocks recording.now.samples.iq.now recording.now.rate.hz ≤ length work.old }
    ensures { result ≡ fit_of recording.now.samples.iq.now recording.now.rate.hz cyc e }
{
    let fs = recording.rate.hz;
    let block = slope_block(fs);
    let inside = interior_of(recording.samples.count(), fs, e.start, e.end)?;
    fit_inside(&recording.samples, cyc, block, e, inside, work, sine)
}
