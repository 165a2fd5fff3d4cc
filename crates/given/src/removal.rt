// subtract, open to callers.
ghost use Rattle.std.specs.Prelude.{◌≡◌};
ghost use Rattle.questions.specs.Refusals.{no_of};
ghost use Rattle.questions.specs.Questions.{first_no};
ghost use Rattle.given.specs.Removal.{subtract_questions, subtract_outcome, subtract_rule};

use questions::{GivenEstimate, Refusal, accept_recording, ask, estimate_ok};
use trig::Sines;

// Questions 1, 2, 3 and 7.
#[tactic(auto, using(questions::proofs::Numbers::number_some), unfolding(questions::specs::Questions::first_no))]
fn accept_subtract(iq: &[f32], fs: f64, given: &GivenEstimate) -> Result<(), Refusal>
    ensures { let g = given.now in no_of result
        ≡ first_no (subtract_questions iq.now fs g.carrier_hz g.carrier_step_hz g.elements.now g.element_count g.fits.now g.fit_count) }
{
    accept_recording(iq, fs)?;
    ask(estimate_ok(given), Refusal::Given)
}

// Rust: subtract. It asks first.
pub fn subtract(buf: &mut [f32], fs: f64, given: &GivenEstimate) -> Result<(), Refusal>
    ensures { let g = given.now in subtract_outcome result buf.new
        ≡ subtract_rule buf.old fs g.carrier_hz g.carrier_step_hz g.elements.now g.element_count g.fits.now g.fit_count }
{
    accept_subtract(buf, fs, given)?;
    let sine = Sines::new();
    let fits = given.sender().fits;
    synth::subtract(buf, fs, given.carrier_hz, &fits, &sine);
    Ok(())
}
