// residual_check, open to callers.
ghost use Rattle.std.specs.Prelude.{◌≡◌};
ghost use Rattle.row.specs.Samples.{Singles};
ghost use Rattle.given.specs.Residual.{residual_outcome, residual_rule};

use measure::ResidualCheck;
use questions::{GivenEstimate, Refusal, accept_measure};
use row::Recording;
use trig::Sines;

// Rust: residual_check. It asks first. What is promised of the numbers it was handed, that each is an f32, is what the
// theorem on the ranked powers goes by.
// Its steps are second_carrier_evidence's: one function for both would take a closure over what is lent, no plainer.
pub fn residual_check(
    iq: &[f32],
    fs: f64,
    given: &GivenEstimate,
    work: &mut [f64],
) -> Result<ResidualCheck, Refusal>
    ensures work_after { let g = given.now in residual_outcome result work.new
        ≡ residual_rule iq.now fs g.carrier_hz g.carrier_step_hz g.elements.now g.element_count g.fits.now g.fit_count work.old }
    ensures singles { Singles iq.now }
{
    accept_measure(iq, fs, given, work.len())?;
    let recording = Recording::new(iq, fs);
    let sine = Sines::new();
    let check = measure::residual_check(&recording, &given.sender(), work, &sine);
    Ok(check)
}
