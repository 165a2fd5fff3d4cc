// block_classes, open to callers.
ghost use Rattle.std.specs.Prelude.{◌≡◌};
ghost use Rattle.questions.specs.Refusals.{no_of};
ghost use Rattle.questions.specs.Questions.{first_no};
ghost use Rattle.given.specs.Blocks.{classes_questions, classes_outcome, classes_rule};

use classes::{ClassCounts, classify_blocks, count_classes};
use questions::{
    GivenEstimate, Refusal, ask, class_places_ok, count_ok, estimate_ok, window_blocks,
};
use row::SampleRate;

// How many blocks of `window` samples there are, and how many have each class.
#[derive(Clone, Copy)]
pub struct BlockClasses {
    pub blocks: usize,
    pub counts: ClassCounts,
}

// Questions 1, 2, 5 and 7. No recording is lent, so that question 3 has nothing to ask about.
#[tactic(auto, using(questions::proofs::Numbers::number_some), unfolding(questions::specs::Questions::first_no))]
fn accept_classes(
    iq_len: usize,
    fs: f64,
    given: &GivenEstimate,
    places: usize,
) -> Result<(), Refusal>
    ensures { let g = given.now in no_of result
        ≡ first_no (classes_questions iq_len fs g.carrier_hz g.carrier_step_hz g.elements.now g.element_count g.fits.now g.fit_count places) }
{
    ask(row::rate_ok(fs), Refusal::Rate)?;
    ask(count_ok(iq_len), Refusal::Count)?;
    ask(class_places_ok(iq_len, fs, places), Refusal::Places)?;
    ask(estimate_ok(given), Refusal::Given)
}

// Rust: classify_blocks, which is not open there. It asks first; the recording is given as its length alone, and the
// list of classes is lent.
pub fn block_classes(
    iq_len: usize,
    fs: f64,
    given: &GivenEstimate,
    classes: &mut [f64],
) -> Result<BlockClasses, Refusal>
    ensures { let g = given.now in classes_outcome result classes.new
        ≡ classes_rule iq_len fs g.carrier_hz g.carrier_step_hz g.elements.now g.element_count g.fits.now g.fit_count classes.old }
{
    accept_classes(iq_len, fs, given, classes.len())?;
    let blocks = window_blocks(iq_len, fs);
    let sender = given.sender();
    classify_blocks(
        SampleRate::new(fs),
        iq_len / 2,
        &sender.elements,
        &sender.fits,
        &mut classes[0..blocks],
    );
    let counts = count_classes(&classes[0..blocks]);
    Ok(BlockClasses { blocks, counts })
}
