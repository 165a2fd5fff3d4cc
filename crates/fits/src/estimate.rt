// The estimate of a strong sender.
ghost use Rattle.std.specs.Prelude.{◌≡◌, ◌*◌, ◌/◌, ◌≤◌, length};
ghost use Rattle.row.specs.Window.{step_blocks};
ghost use Rattle.lists.specs.Records.{handed};
ghost use Rattle.elements.specs.Element.{ELEMENT, handed_elements};
ghost use Rattle.elements.specs.Find.{found_of, elements_found};
ghost use Rattle.fits.specs.List.{FIT, handed_fits};
ghost use Rattle.fits.specs.Estimate.{fits_found, strong_elements, strong_fits, strong_estimate};

use crate::carrier::mean_slope_hz;
use crate::list::{Fits, fit_elements};
use elements::{Elements, Found, find_elements};
use row::Recording;
use trig::Sines;

// What one find and fit counts.
#[derive(Clone, Copy)]
pub struct Pass {
    pub found: Found,
    pub fitted: usize,
}

// The elements at a carrier go into one list, and their fits into another.
// What room the lists and the work slice have stands in clauses, here, in fit.rt and in list.rt: it is said of the
// recording and a lent slice. A type over both would be lent as `&mut`, and each call would need a clause that the
// recording in it stays the same.
fn find_and_fit(
    recording: &Recording,
    carrier: f64,
    elements: &mut [f64],
    fits: &mut [f64],
    work: &mut [f64],
    sine: &Sines,
) -> Pass
    requires elements_room { ELEMENT * (step_blocks recording.now.samples.iq.now recording.now.rate.hz / 2) ≤ length elements.old }
    requires fits_room { FIT * (step_blocks recording.now.samples.iq.now recording.now.rate.hz / 2) ≤ length fits.old }
    requires work_room { 4 * step_blocks recording.now.samples.iq.now recording.now.rate.hz ≤ length work.old }
    ensures { let iq = recording.now.samples.iq.now in let fs = recording.now.rate.hz in
        (result.found ≡ found_of iq fs carrier)
        × (result.fitted ≡ length (fits_found iq fs carrier))
        × (handed_elements elements.new result.found.listed ≡ handed ELEMENT (elements_found iq fs carrier) elements.old)
        × (handed_fits fits.new result.fitted ≡ handed FIT (fits_found iq fs carrier) fits.old) }
{
    let found = find_elements(recording, carrier, elements, work, sine);
    let listed = Elements::new(elements, found.listed);
    let fitted = fit_elements(recording, carrier, &listed, fits, work, sine);
    Pass { found, fitted }
}

// Rust: StrongEstimate, whose elements and fits are in lent lists here, with their counts.
#[derive(Clone, Copy)]
pub struct Estimate {
    pub carrier_hz: f64,
    pub carrier_step_hz: f64,
    pub found: Found,
    pub fitted: usize,
}

// A strong sender as its estimate has it. Rust: StrongEstimate, as the measures read it.
#[derive(Clone, Copy)]
pub struct StrongSender<'a> {
    pub carrier_hz: f64,
    pub elements: Elements<'a>,
    pub fits: Fits<'a>,
}

// Rust: estimate_strong. Both lists hand out the second pass; what the first left behind it there is free.
pub fn estimate_strong(
    recording: &Recording,
    hint: f64,
    elements: &mut [f64],
    fits: &mut [f64],
    work: &mut [f64],
    sine: &Sines,
) -> Estimate
    requires elements_room { ELEMENT * (step_blocks recording.now.samples.iq.now recording.now.rate.hz / 2) ≤ length elements.old }
    requires fits_room { FIT * (step_blocks recording.now.samples.iq.now recording.now.rate.hz / 2) ≤ length fits.old }
    requires work_room { 4 * step_blocks recording.now.samples.iq.now recording.now.rate.hz ≤ length work.old }
    ensures { let iq = recording.now.samples.iq.now in let fs = recording.now.rate.hz in
        (result ≡ strong_estimate iq fs hint)
        × (handed_elements elements.new result.found.listed ≡ handed ELEMENT (strong_elements iq fs hint) elements.old)
        × (handed_fits fits.new result.fitted ≡ handed FIT (strong_fits iq fs hint) fits.old) }
{
    let first = find_and_fit(recording, hint, elements, fits, work, sine);
    let step = mean_slope_hz(&Fits::new(fits, first.fitted), recording.rate.hz);
    let carrier = hint + step;
    let second = find_and_fit(recording, carrier, elements, fits, work, sine);
    let found = second.found;
    Estimate {
        carrier_hz: carrier,
        carrier_step_hz: step,
        found,
        fitted: second.fitted,
    }
}
