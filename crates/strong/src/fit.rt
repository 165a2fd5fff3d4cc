// fit_elements, open to callers.
ghost use Rattle.std.specs.Prelude.{◌≡◌};
ghost use Rattle.questions.specs.Refusals.{no_of};
ghost use Rattle.questions.specs.Questions.{first_no};
ghost use Rattle.strong.specs.Fit.{fit_questions, fit_outcome, fit_rule};

use elements::Elements;
use fits::FIT;
use questions::{
    Refusal, accept_recording, ask, carrier_ok, elements_ok, given_places_ok, work_ok,
};
use row::Recording;
use trig::Sines;

// Questions 1 to 7.
#[tactic(auto, using(questions::proofs::Numbers::number_some), unfolding(questions::specs::Questions::first_no))]
fn accept_fit(
    iq: &[f32],
    fs: f64,
    carrier_hz: f64,
    elements: &[f64],
    count: usize,
    fits: usize,
    work: usize,
) -> Result<(), Refusal>
    ensures { no_of result ≡ first_no (fit_questions iq.now fs carrier_hz elements.now count fits work) }
{
    accept_recording(iq, fs)?;
    ask(carrier_ok(fs, carrier_hz), Refusal::Carrier)?;
    ask(given_places_ok(count, fits / FIT), Refusal::Places)?;
    ask(work_ok(iq, fs, work), Refusal::Work)?;
    ask(elements_ok(elements, count), Refusal::Given)
}

// Rust: fit_elements. It asks first; the elements are given and the fits are lent as flat lists. The elements come with
// any count, and not as `Elements`, whose type says that the list has the places: question 7 asks about that.
pub fn fit_elements(
    iq: &[f32],
    fs: f64,
    carrier_hz: f64,
    elements: &[f64],
    count: usize,
    fits: &mut [f64],
    work: &mut [f64],
) -> Result<usize, Refusal>
    ensures { fit_outcome result fits.new work.new
        ≡ fit_rule iq.now fs carrier_hz elements.now count fits.old work.old }
{
    accept_fit(iq, fs, carrier_hz, elements, count, fits.len(), work.len())?;
    let recording = Recording::new(iq, fs);
    let given = Elements {
        numbers: elements,
        count,
    };
    let sine = Sines::new();
    let fitted = fits::fit_elements(&recording, carrier_hz, &given, fits, work, &sine);
    Ok(fitted)
}
