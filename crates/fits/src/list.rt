// Fits in a lent list, and the fits of a list of elements.
ghost use Rattle.std.specs.Prelude.{◌≡◌, ◌+◌, ◌*◌, ◌≤◌, length};
ghost use Rattle.row.specs.Window.{step_blocks};
ghost use Rattle.lists.specs.Records.{handed};
ghost use Rattle.elements.specs.Element.{elements_in};
ghost use Rattle.fits.specs.List.{FIT, fit_at, handed_fits, if_fitted, fits_of};
ghost use Rattle.fits.specs.Inner.{AllTimed, put_fit, fits_from};

use crate::fit::{ElementFit, fit_one};
use complex::Complex;
use elements::{ELEMENT, Elements, Places, element_at, element_from, put_element_from};
use row::Recording;
use trig::Sines;

// How many numbers a fit has in a list, a place: those of its element and four more.
pub const FIT: usize = ELEMENT + 4;

// The first fits of a list.
pub type Fits<'a> = Places<'a, FIT>;

// A fit at place p: the numbers of its element, then the gain's two, slope and reference.
pub fn put_fit(out: &mut [f64], p: usize, f: ElementFit)
    requires { FIT * p + FIT ≤ length out.old }
    ensures { out.new ≡ put_fit out.old p f }
{
    let at = FIT * p;
    let own = at + ELEMENT;
    let gain = f.gain;
    put_element_from(out, at, f.element);
    out[own] = gain.re;
    out[own + 1] = gain.im;
    out[own + 2] = f.slope_rad_per_sample;
    out[own + 3] = f.ref_sample;
}

pub fn fit_at(row: &[f64], p: usize) -> ElementFit
    requires { FIT * p + FIT ≤ length row.now }
    ensures { result ≡ fit_at row.now p }
{
    let at = FIT * p;
    let own = at + ELEMENT;
    let gain = Complex {
        re: row[own],
        im: row[own + 1],
    };
    ElementFit {
        element: element_from(row, at),
        gain,
        slope_rad_per_sample: row[own + 2],
        ref_sample: row[own + 3],
    }
}

// A fit goes to place p; a skipped element leaves none. The answer is the next place.
fn keep(fits: &mut [f64], p: usize, fit: Option<ElementFit>) -> usize
    requires { FIT * p + FIT ≤ length fits.old }
    ensures { (result ≡ p + length (if_fitted fit)) × (fits.new ≡ fits_from fits.old p (if_fitted fit)) }
{
    let Some(f) = fit else {
        return p;
    };
    put_fit(fits, p, f);
    p + 1
}

// Rust: fit_elements. The fits go into a list, and the answer is their number.
pub fn fit_elements(
    recording: &Recording,
    carrier: f64,
    elements: &Elements,
    fits: &mut [f64],
    work: &mut [f64],
    sine: &Sines,
) -> usize
    requires all_timed { AllTimed elements.now.numbers.now elements.now.count }
    requires fits_room { FIT * elements.now.count ≤ length fits.old }
    requires work_room { 4 * step_blocks recording.now.samples.iq.now recording.now.rate.hz ≤ length work.old }
    ensures { let all = fits_of recording.now.samples.iq.now recording.now.rate.hz carrier (elements_in elements.now.numbers.now elements.now.count) in
        (result ≡ length all) × (handed_fits fits.new result ≡ handed FIT all fits.old) }
{
    let cyc = carrier / recording.rate.hz;
    let mut fitted: usize = 0;
    for place in elements.each() {
        let fit = fit_one(recording, cyc, element_at(place, 0), work, sine);
        fitted = keep(fits, fitted, fit);
    }
    fitted
}
