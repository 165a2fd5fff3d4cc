// The run, for C: it returns 0 or a refusal's number, and writes its figures where it returns 0.
ghost use Rattle.std.specs.Prelude.{◌≡◌};
ghost use Rattle.row.specs.Samples.{Singles};
ghost use Rattle.fits.specs.Estimate.{strong_estimate};
ghost use Rattle.capi.specs.Running.{run_called, run_call};

use crate::answers::told;
use figures::{RUN_FIGURES, of_run};

// Each number that the buffer held is an f32, as in cancel::run.
#[unsafe(no_mangle)]
pub extern "C" fn cancel_run(
    buf: &mut [f32],
    fs: f64,
    hint_hz: f64,
    elements: &mut [f64],
    fits: &mut [f64],
    work: &mut [f64],
    figures: &mut [f64; RUN_FIGURES],
) -> u64
    ensures figures_after { run_called result (strong_estimate buf.old fs hint_hz) buf.new elements.new fits.new work.new figures.new
        ≡ run_call buf.old fs hint_hz elements.old fits.old work.old figures.old }
    ensures singles { Singles buf.old }
{
    told(
        cancel::run(buf, fs, hint_hz, elements, fits, work),
        figures,
        of_run,
    )
}
