// A stored case, and what its call is given of what is kept: as many numbers as the case names.
ghost use Rattle.std.specs.Prelude.{◌≡◌, take};
ghost use Rattle.replay.specs.Cases.{CaseCounted};

use crate::calls;
use crate::kept::Kept;
use cancel::GivenEstimate;
use stored::answer::Answered;
use stored::asked::{Asked, of_case};
use stored::kind::Call;
use stored::tally::Tally;

// What a case asks, its body, the recording as far as it is lent, what the call has to leave of it, and the lists.
#[derive(Clone, Copy)]
pub struct Case<'a> {
    pub asked: Asked,
    pub body: &'a [u8],
    pub iq: &'a [f32],
    pub left: &'a [f32],
    pub stored_elements: &'a [f64],
    pub stored_fits: &'a [f64],
}

impl<'a> Case<'a> {
    ghost use Rattle.std.specs.Prelude.{◌≡◌, take};

    // A case as its body asks it, of what is kept: the recording as far as it is lent, all else whole.
    pub fn new(body: &'a [u8], kept: &'a Kept) -> Case<'a>
        ensures { (result.body.now ≡ body.now) × (result.iq.now ≡ take result.asked.floats kept.now.iq)
            × (result.left.now ≡ kept.now.left) × (result.stored_elements.now ≡ kept.now.elements)
            × (result.stored_fits.now ≡ kept.now.fits) }
    {
        let asked = of_case(body);
        Case {
            asked,
            body,
            iq: first(&kept.iq, asked.floats),
            left: &kept.left,
            stored_elements: &kept.elements,
            stored_fits: &kept.fits,
        }
    }

    // The first places of the kept elements, as far as a case hands them over.
    pub fn given_elements(&self) -> &'a [f64]
        ensures { result.now ≡ take self.now.asked.given_elements.length self.now.stored_elements.now }
    {
        first(self.stored_elements, self.asked.given_elements.length)
    }

    // The estimate that a case hands over, with the first places of both kept lists.
    pub fn given(&self) -> GivenEstimate<'a>
        ensures carrier { (result.carrier_hz ≡ self.now.asked.carrier_hz)
            × (result.carrier_step_hz ≡ self.now.asked.carrier_step_hz) }
        ensures elements { (result.elements.now ≡ take self.now.asked.given_elements.length self.now.stored_elements.now)
            × (result.element_count ≡ self.now.asked.given_elements.count) }
        ensures fits { (result.fits.now ≡ take self.now.asked.given_fits.length self.now.stored_fits.now)
            × (result.fit_count ≡ self.now.asked.given_fits.count) }
    {
        let a = self.asked;
        GivenEstimate {
            carrier_hz: a.carrier_hz,
            carrier_step_hz: a.carrier_step_hz,
            elements: self.given_elements(),
            element_count: a.given_elements.count,
            fits: first(self.stored_fits, a.given_fits.length),
            fit_count: a.given_fits.count,
        }
    }
}

// The first n of a row, or all where it has fewer.
fn first<T>(row: &[T], n: usize) -> &[T]
    ensures { result.now ≡ take n row.now }
{
    let end = n.min(row.len());
    &row[..end]
}

// Asks a call of a case and counts what came of it. What a run found is counted too, where it is not meant to differ.
// A table in place of the match would name the eight calls as well, each by a closure.
pub fn ask(call: Call, meant: bool, body: &[u8], kept: &Kept, tally: &mut Tally)
    ensures { CaseCounted call meant tally.old tally.new }
{
    let answered = match call {
        Call::FindElements => calls::find(body, kept),
        Call::FitElements => calls::fit(body, kept),
        Call::EstimateStrong => calls::estimate(body, kept),
        Call::ResidualCheck => calls::residual(body, kept),
        Call::SecondCarrierEvidence => calls::evidence(body, kept),
        Call::Classify => calls::classify(body),
        Call::Subtract => calls::subtract(body, kept),
        Call::Run => {
            let ran = calls::run(body, kept);
            if !meant {
                tally.count_run(ran);
            }
            Answered::from(ran)
        }
    };
    tally.count(call, meant, answered);
}
