// find_elements, open to callers.
ghost use Rattle.std.specs.Prelude.{◌≡◌};
ghost use Rattle.row.specs.Samples.{Singles};
ghost use Rattle.questions.specs.Refusals.{no_of};
ghost use Rattle.questions.specs.Questions.{first_no};
ghost use Rattle.strong.specs.Find.{find_questions, find_outcome, find_rule};

use elements::{ELEMENT, Found};
use questions::{Refusal, accept_recording, ask, carrier_ok, find_places_ok, work_ok};
use row::Recording;
use trig::Sines;

// Questions 1 to 6.
#[tactic(auto, using(questions::proofs::Numbers::number_some), unfolding(questions::specs::Questions::first_no))]
fn accept_find(
    iq: &[f32],
    fs: f64,
    carrier_hz: f64,
    elements: usize,
    work: usize,
) -> Result<(), Refusal>
    ensures { no_of result ≡ first_no (find_questions iq.now fs carrier_hz elements work) }
{
    accept_recording(iq, fs)?;
    ask(carrier_ok(fs, carrier_hz), Refusal::Carrier)?;
    ask(find_places_ok(iq, fs, elements / ELEMENT), Refusal::Places)?;
    ask(work_ok(iq, fs, work), Refusal::Work)
}

// Rust: find_elements. It asks first, counts, and keeps each element's positions; the list is lent. What is promised of
// the numbers it was handed, that each is an f32, is what the theorems on key-downs go by.
pub fn find_elements(
    iq: &[f32],
    fs: f64,
    carrier_hz: f64,
    elements: &mut [f64],
    work: &mut [f64],
) -> Result<Found, Refusal>
    ensures work_after { find_outcome result elements.new work.new
        ≡ find_rule iq.now fs carrier_hz elements.old work.old }
    ensures singles { Singles iq.now }
{
    accept_find(iq, fs, carrier_hz, elements.len(), work.len())?;
    let recording = Recording::new(iq, fs);
    let sine = Sines::new();
    let found = elements::find_elements(&recording, carrier_hz, elements, work, &sine);
    Ok(found)
}
