// estimate_strong, open to callers.
ghost use Rattle.std.specs.Prelude.{◌≡◌};
ghost use Rattle.row.specs.Samples.{Singles};
ghost use Rattle.strong.specs.Estimate.{estimate_outcome, estimate_rule};

use fits::Estimate;
use questions::{Refusal, accept_estimate};
use row::Recording;
use trig::Sines;

// Rust: estimate_strong. It asks first; the lists are lent, and the counts of the second pass are added. Each number of
// the recording is an f32, as in find_elements.
pub fn estimate_strong(
    iq: &[f32],
    fs: f64,
    hint_hz: f64,
    elements: &mut [f64],
    fits: &mut [f64],
    work: &mut [f64],
) -> Result<Estimate, Refusal>
    ensures work_after { estimate_outcome result elements.new fits.new work.new
        ≡ estimate_rule iq.now fs hint_hz elements.old fits.old work.old }
    ensures singles { Singles iq.now }
{
    accept_estimate(iq, fs, hint_hz, elements.len(), fits.len(), work.len())?;
    let recording = Recording::new(iq, fs);
    let sine = Sines::new();
    let estimate = fits::estimate_strong(&recording, hint_hz, elements, fits, work, &sine);
    Ok(estimate)
}
