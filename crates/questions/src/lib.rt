// 01's questions, each once: yes or no; 1 and 3 are answered by crate row. A call, in a crate above, asks those about
// what it is given, in the order of its own file; what more than one call asks stands here. Callers call `cancel`,
// which does not hand the questions on.
#![tactic(auto)]

mod estimate;
mod refusals;

ghost use Rattle.std.specs.Prelude.{◌≡◌, ◌/◌, ◌<◌, Bool, List, [], ◌∷◌, length, get_or, Float};
ghost use Rattle.std.specs.Fn.{FnReturnsAt};
ghost use Rattle.std.specs.Simd.{first_chunks};
ghost use Rattle.row.specs.Window.{step_blocks};
ghost use Rattle.row.specs.Envelope.{row_length};
ghost use Rattle.classes.specs.Classify.{blocks_of};
ghost use Rattle.questions.specs.Refusals.{number_of, no_of};
ghost use Rattle.questions.specs.Questions.{blocks_for, ask, first_no, recording_questions, count_ok, carrier_ok, places_ok, work_ok, size_ok, position_ok, element_ok, all_ok, elements_ok, fit_ok, fits_ok, estimate_ok, estimate_questions, measure_questions};

use elements::{ELEMENT, KeyedElement, Places, element_at};
pub use estimate::GivenEstimate;
use fits::{ElementFit, FIT, fit_at};
pub use refusals::Refusal;
use row::{edge_step, step_blocks};

// A question: a no is the refusal that stands beside it.
#[tactic(auto, unfolding(crate::specs::Questions::first_no))]
pub fn ask(answer: bool, refusal: Refusal) -> Result<(), Refusal>
    ensures { no_of result ≡ first_no (ask (number_of refusal) answer ∷ []) }
{
    if answer { Ok(()) } else { Err(refusal) }
}

// 1 to 3, which every call that is lent a recording asks first.
#[tactic(auto, using(crate::proofs::Numbers::number_some), unfolding(crate::specs::Questions::first_no))]
pub fn accept_recording(iq: &[f32], fs: f64) -> Result<(), Refusal>
    ensures { no_of result ≡ first_no (recording_questions iq.now fs) }
{
    ask(row::rate_ok(fs), Refusal::Rate)?;
    ask(count_ok(iq.len()), Refusal::Count)?;
    ask(row::all_finite(iq), Refusal::Sample)
}

// 2: the f32 count is even and at most 2,097,152.
#[tactic(auto, unfolding(crate::specs::Questions::count_ok))]
pub fn count_ok(n: usize) -> bool
    ensures { result ≡ count_ok n }
{
    n % 2 == 0 && n <= 2097152
}

// 4: the hint or the carrier is finite, of size at most fs/2.
#[tactic(auto, unfolding(crate::specs::Questions::carrier_ok))]
pub fn carrier_ok(fs: f64, hz: f64) -> bool
    ensures { result ≡ carrier_ok fs hz }
{
    float::finite(hz) && float::abs(hz) <= fs / 2.0
}

// 5, of a list of found elements or of their fits: it has at least floor(B/2) places.
pub fn find_places_ok(iq: &[f32], fs: f64, places: usize) -> bool
    ensures { result ≡ places_ok (step_blocks iq.now fs / 2) places }
{
    step_blocks(iq, fs) / 2 <= places
}

// 5, of a list that is filled by given elements: it has at least a place for each.
pub fn given_places_ok(count: usize, places: usize) -> bool
    ensures { result ≡ places_ok count places }
{
    count <= places
}

// 5, of a list for the amplitude row: it has at least B - 7 places, none where B is at most 7.
pub fn row_places_ok(iq: &[f32], fs: f64, places: usize) -> bool
    ensures { result ≡ places_ok (row_length iq.now fs) places }
{
    step_blocks(iq, fs).saturating_sub(7) <= places
}

// B, of a recording that is lent as iq_len numbers, for whoever has to lend enough; 0 where question 1 refuses fs.
#[tactic(auto, using(row::proofs::Steps::step_low), unfolding(crate::specs::Questions::blocks_for))]
pub fn blocks_for(iq_len: usize, fs: f64) -> usize
    ensures { result ≡ blocks_for iq_len fs }
{
    if row::rate_ok(fs) {
        iq_len / 2 / edge_step(fs)
    } else {
        0
    }
}

// How many whole blocks of `window` samples so many f32 have. The window is 8 steps; the product is small only where
// question 1 takes the rate, so that the code divides twice.
pub fn window_blocks(iq_len: usize, fs: f64) -> usize
    ensures { result ≡ blocks_of fs (iq_len / 2) }
{
    iq_len / 2 / edge_step(fs) / 8
}

// 5, of a list for classes: it has at least a place for each of these blocks.
pub fn class_places_ok(iq_len: usize, fs: f64, places: usize) -> bool
    ensures { result ≡ places_ok (blocks_of fs (iq_len / 2)) places }
{
    window_blocks(iq_len, fs) <= places
}

// 6: the work slice has at least 4 × B numbers.
#[tactic(auto, using(crate::proofs::Accepted::work_is))]
pub fn work_ok(iq: &[f32], fs: f64, len: usize) -> bool
    ensures { result ≡ work_ok (step_blocks iq.now fs) len }
{
    step_blocks(iq, fs) <= len / 4
}

// 2^200, the largest size of a given number.
const LARGEST: f64 = 1606938044258990275541962092341162602522202993782792835301376.0;

// 7: a given number is finite and of size at most 2^200.
#[tactic(auto, unfolding(crate::specs::Questions::size_ok))]
fn size_ok(x: f64) -> bool
    ensures { result ≡ size_ok x }
{
    float::finite(x) && float::abs(x) <= LARGEST
}

// 7: a given up or down is a whole number from 0, below 2^20.
fn position_ok(x: f64) -> bool
    ensures { result ≡ position_ok x }
{
    x >= 0.0 && x < 1048576.0 && float::floor(x) == x
}

// 7, of an element.
#[tactic(auto, unfolding(crate::specs::Questions::element_ok))]
fn element_ok(e: KeyedElement) -> bool
    ensures { result ≡ element_ok e }
{
    size_ok(e.start) && size_ok(e.end) && position_ok(e.up) && position_ok(e.down)
}

// 7, of given records, each in a place of WIDTH numbers: the count fits their list, and every record is accepted. WIDTH
// is small, so that the size of a place in bytes is a number of 64 bits.
fn records_ok<const WIDTH: usize, F: Fn(&[f64]) -> bool>(list: &[f64], count: usize, ok: F) -> bool
    requires width { (0 < WIDTH) × (WIDTH < 64) }
    requires callable { (x : _) → length x.now ≡ WIDTH → F.pre ok x }
    ensures { (p : List Float → Bool) → ((x : List Float) (t : Bool) → FnReturnsAt F.Fn ok x t → t ≡ p x)
        → result ≡ all_ok p (λ k. get_or (first_chunks WIDTH count list.now) k []) (length list.now / WIDTH) count }
{
    if count > list.len() / WIDTH {
        return false;
    }
    for place in Places::<WIDTH>::new(list, count).each() {
        if !ok(place) {
            return false;
        }
    }
    true
}

// 7, of given elements: the count fits its list, and every element is accepted.
pub fn elements_ok(list: &[f64], count: usize) -> bool
    ensures { result ≡ elements_ok list.now count }
{
    records_ok::<ELEMENT, _>(list, count, |place| element_ok(element_at(place, 0)))
}

// 7, of a fit.
#[tactic(auto, unfolding(crate::specs::Questions::fit_ok))]
fn fit_ok(f: ElementFit) -> bool
    ensures { result ≡ fit_ok f }
{
    let gain = f.gain;
    element_ok(f.element)
        && size_ok(gain.re)
        && size_ok(gain.im)
        && size_ok(f.slope_rad_per_sample)
        && size_ok(f.ref_sample)
}

// 7, of given fits: the count fits its list, and every fit is accepted.
pub fn fits_ok(list: &[f64], count: usize) -> bool
    ensures { result ≡ fits_ok list.now count }
{
    records_ok::<FIT, _>(list, count, |place| fit_ok(fit_at(place, 0)))
}

// 7, of a given estimate.
#[tactic(auto, unfolding(crate::specs::Questions::estimate_ok))]
pub fn estimate_ok(given: &GivenEstimate) -> bool
    ensures { let g = given.now in result
        ≡ estimate_ok g.carrier_hz g.carrier_step_hz g.elements.now g.element_count g.fits.now g.fit_count }
{
    size_ok(given.carrier_hz)
        && size_ok(given.carrier_step_hz)
        && elements_ok(given.elements, given.element_count)
        && fits_ok(given.fits, given.fit_count)
}

// 1 to 6, as `estimate_strong` and the run ask them.
#[tactic(auto, using(crate::proofs::Numbers::number_some), unfolding(crate::specs::Questions::first_no))]
pub fn accept_estimate(
    iq: &[f32],
    fs: f64,
    hint_hz: f64,
    elements: usize,
    fits: usize,
    work: usize,
) -> Result<(), Refusal>
    ensures { no_of result ≡ first_no (estimate_questions iq.now fs hint_hz elements fits work) }
{
    accept_recording(iq, fs)?;
    ask(carrier_ok(fs, hint_hz), Refusal::Carrier)?;
    ask(find_places_ok(iq, fs, elements / ELEMENT), Refusal::Places)?;
    ask(find_places_ok(iq, fs, fits / FIT), Refusal::Places)?;
    ask(work_ok(iq, fs, work), Refusal::Work)
}

// 1, 2, 3, 6 and 7, as `residual_check` and `second_carrier_evidence` ask them.
#[tactic(auto, using(crate::proofs::Numbers::number_some), unfolding(crate::specs::Questions::first_no))]
pub fn accept_measure(
    iq: &[f32],
    fs: f64,
    given: &GivenEstimate,
    work: usize,
) -> Result<(), Refusal>
    ensures { let g = given.now in no_of result
        ≡ first_no (measure_questions iq.now fs g.carrier_hz g.carrier_step_hz g.elements.now g.element_count g.fits.now g.fit_count work) }
{
    accept_recording(iq, fs)?;
    ask(work_ok(iq, fs, work), Refusal::Work)?;
    ask(estimate_ok(given), Refusal::Given)
}
