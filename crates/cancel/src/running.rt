// run, open to callers.
ghost use Rattle.std.specs.Prelude.{◌≡◌};
ghost use Rattle.row.specs.Samples.{Singles};
ghost use Rattle.cancel.specs.Running.{run_outcome, run_rule};

use engine::RunFigures;
use questions::{Refusal, accept_estimate};
use row::SampleRate;
use trig::Sines;

// The run: it asks first, what estimate_strong asks; then estimate, residual check, evidence and hypothesis, and the
// strong sender is taken off the buffer where all four conditions hold. Each number that the buffer held is an f32, as
// in find_elements.
pub fn run(
    buf: &mut [f32],
    fs: f64,
    hint_hz: f64,
    elements: &mut [f64],
    fits: &mut [f64],
    work: &mut [f64],
) -> Result<RunFigures, Refusal>
    ensures work_after { run_outcome result buf.new elements.new fits.new work.new
        ≡ run_rule buf.old fs hint_hz elements.old fits.old work.old }
    ensures singles { Singles buf.old }
{
    accept_estimate(buf, fs, hint_hz, elements.len(), fits.len(), work.len())?;
    let rate = SampleRate::new(fs);
    let sine = Sines::new();
    let figures = engine::run::run(buf, rate, hint_hz, elements, fits, work, &sine);
    Ok(figures)
}
