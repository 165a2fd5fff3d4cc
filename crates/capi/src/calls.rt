// find_elements, fit_elements and estimate_strong, for C: each returns 0 or a refusal's number, and writes figures
// where it returns 0.
ghost use Rattle.std.specs.Prelude.{◌≡◌, length};
ghost use Rattle.elements.specs.Find.{found_of};
ghost use Rattle.fits.specs.Estimate.{strong_estimate};
ghost use Rattle.strong.specs.Fit.{fits_given};
ghost use Rattle.capi.specs.Calls.{find_called, find_call, fit_called, fit_call, estimate_called, estimate_call};

use crate::answers::told;
use figures::{ESTIMATE_FIGURES, FIND_FIGURES, FIT_FIGURES, of_estimate, of_find, of_fit};

#[unsafe(no_mangle)]
pub extern "C" fn cancel_find_elements(
    iq: &[f32],
    fs: f64,
    carrier_hz: f64,
    elements: &mut [f64],
    work: &mut [f64],
    figures: &mut [f64; FIND_FIGURES],
) -> u64
    ensures { find_called result (found_of iq.now fs carrier_hz).listed elements.new work.new figures.new
        ≡ find_call iq.now fs carrier_hz elements.old work.old figures.old }
{
    told(
        cancel::find_elements(iq, fs, carrier_hz, elements, work),
        figures,
        of_find,
    )
}

#[unsafe(no_mangle)]
pub extern "C" fn cancel_fit_elements(
    iq: &[f32],
    fs: f64,
    carrier_hz: f64,
    elements: &[f64],
    element_count: usize,
    fits: &mut [f64],
    work: &mut [f64],
    figures: &mut [f64; FIT_FIGURES],
) -> u64
    ensures { fit_called result (length (fits_given iq.now fs carrier_hz elements.now element_count))
        fits.new work.new figures.new
        ≡ fit_call iq.now fs carrier_hz elements.now element_count fits.old work.old figures.old }
{
    told(
        cancel::fit_elements(iq, fs, carrier_hz, elements, element_count, fits, work),
        figures,
        of_fit,
    )
}

#[unsafe(no_mangle)]
pub extern "C" fn cancel_estimate_strong(
    iq: &[f32],
    fs: f64,
    hint_hz: f64,
    elements: &mut [f64],
    fits: &mut [f64],
    work: &mut [f64],
    figures: &mut [f64; ESTIMATE_FIGURES],
) -> u64
    ensures { estimate_called result (strong_estimate iq.now fs hint_hz) elements.new fits.new work.new figures.new
        ≡ estimate_call iq.now fs hint_hz elements.old fits.old work.old figures.old }
{
    told(
        cancel::estimate_strong(iq, fs, hint_hz, elements, fits, work),
        figures,
        of_estimate,
    )
}
