// The figures of a hypothesis, and the offset of an evidence that is given as figures.
ghost use Rattle.std.specs.Prelude.{◌≡◌};
ghost use Rattle.figures.specs.Hypothesis.{case_of, hypothesis_figures, given_offset};

use crate::places::CLASSIFY_FIGURES;
use measure::Hypothesis;

// A case of the hypothesis as numbers: the C interface hands out numbers alone.
#[derive(Clone, Copy)]
pub struct HypothesisCase {
    pub number: f64,
    pub offset_hz: f64,
}

pub fn case_of(h: Hypothesis) -> HypothesisCase
    ensures { result ≡ case_of h }
{
    match h {
        Hypothesis::OneSignal => HypothesisCase {
            number: 0.0,
            offset_hz: 0.0,
        },
        Hypothesis::TwoSignalCw { offset_hz: f } => HypothesisCase {
            number: 1.0,
            offset_hz: f,
        },
        Hypothesis::NonCw => HypothesisCase {
            number: 2.0,
            offset_hz: 0.0,
        },
        Hypothesis::Unresolved => HypothesisCase {
            number: 3.0,
            offset_hz: 0.0,
        },
    }
}

pub fn of_hypothesis(h: Hypothesis) -> [f64; CLASSIFY_FIGURES]
    ensures { result ≡ hypothesis_figures h }
{
    let c = case_of(h);
    [c.number, c.offset_hz]
}

// The offset of an evidence that is given as two numbers, present and the offset: the C interface hands it in so.
pub fn given_offset(present: u64, hz: f64) -> Option<f64>
    ensures { result ≡ given_offset present hz }
{
    if present == 0 { None } else { Some(hz) }
}
