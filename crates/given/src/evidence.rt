// second_carrier_evidence, open to callers.
ghost use Rattle.std.specs.Prelude.{◌≡◌};
ghost use Rattle.row.specs.Samples.{Singles};
ghost use Rattle.given.specs.Evidence.{evidence_outcome, evidence_rule};

use measure::SecondCarrierEvidence;
use questions::{GivenEstimate, Refusal, accept_measure};
use row::Recording;
use trig::Sines;

// Rust: second_carrier_evidence. It asks first. Each number of the recording is an f32, as in residual_check.
pub fn second_carrier_evidence(
    iq: &[f32],
    fs: f64,
    given: &GivenEstimate,
    work: &mut [f64],
) -> Result<SecondCarrierEvidence, Refusal>
    ensures work_after { let g = given.now in evidence_outcome result work.new
        ≡ evidence_rule iq.now fs g.carrier_hz g.carrier_step_hz g.elements.now g.element_count g.fits.now g.fit_count work.old }
    ensures singles { Singles iq.now }
{
    accept_measure(iq, fs, given, work.len())?;
    let recording = Recording::new(iq, fs);
    let sine = Sines::new();
    let evidence = measure::second_carrier_evidence(&recording, &given.sender(), work, &sine);
    Ok(evidence)
}
