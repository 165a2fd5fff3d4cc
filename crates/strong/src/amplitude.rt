// amplitude_row, open to callers.
ghost use Rattle.std.specs.Prelude.{◌≡◌};
ghost use Rattle.row.specs.Samples.{Singles};
ghost use Rattle.questions.specs.Refusals.{no_of};
ghost use Rattle.questions.specs.Questions.{first_no};
ghost use Rattle.strong.specs.Amplitude.{row_questions, row_outcome, row_rule};

use elements::AmplitudeRow;
use questions::{Refusal, accept_recording, ask, carrier_ok, row_places_ok, work_ok};
use row::Recording;
use trig::Sines;

// Questions 1 to 6.
#[tactic(auto, using(questions::proofs::Numbers::number_some), unfolding(questions::specs::Questions::first_no))]
fn accept_row(iq: &[f32], fs: f64, carrier_hz: f64, row: usize, work: usize) -> Result<(), Refusal>
    ensures { no_of result ≡ first_no (row_questions iq.now fs carrier_hz row work) }
{
    accept_recording(iq, fs)?;
    ask(carrier_ok(fs, carrier_hz), Refusal::Carrier)?;
    ask(row_places_ok(iq, fs, row), Refusal::Places)?;
    ask(work_ok(iq, fs, work), Refusal::Work)
}

// Rust: `amps` and `thr` of find_elements, which keeps both to itself. It asks first; the row goes into a lent list.
// What is promised of the numbers it was handed, that each is an f32, is what the theorems on key-downs go by.
pub fn amplitude_row(
    iq: &[f32],
    fs: f64,
    carrier_hz: f64,
    row: &mut [f64],
    work: &mut [f64],
) -> Result<AmplitudeRow, Refusal>
    ensures work_after { row_outcome result row.new work.new
        ≡ row_rule iq.now fs carrier_hz row.old work.old }
    ensures singles { Singles iq.now }
{
    accept_row(iq, fs, carrier_hz, row.len(), work.len())?;
    let recording = Recording::new(iq, fs);
    let sine = Sines::new();
    let made = elements::amplitude_row(&recording, carrier_hz, row, work, &sine);
    Ok(made)
}
