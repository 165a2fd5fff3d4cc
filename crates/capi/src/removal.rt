// The subtraction of a given estimate, for C: it returns 0 or a refusal's number, and answers no figures.
ghost use Rattle.std.specs.Prelude.{◌≡◌};
ghost use Rattle.given.specs.Removal.{subtract_rule};
ghost use Rattle.capi.specs.Removal.{subtract_called};

use cancel::GivenEstimate;

#[unsafe(no_mangle)]
pub extern "C" fn cancel_subtract(
    buf: &mut [f32],
    fs: f64,
    carrier_hz: f64,
    carrier_step_hz: f64,
    elements: &[f64],
    element_count: usize,
    fits: &[f64],
    fit_count: usize,
) -> u64
    ensures { subtract_called result buf.new
        ≡ subtract_rule buf.old fs carrier_hz carrier_step_hz elements.now element_count fits.now fit_count }
{
    let given = GivenEstimate {
        carrier_hz,
        carrier_step_hz,
        elements,
        element_count,
        fits,
        fit_count,
    };
    // A subtraction has no figures, so `told`, which writes them, is not asked.
    match cancel::subtract(buf, fs, &given) {
        Ok(()) => 0,
        Err(refusal) => u64::from(refusal),
    }
}
