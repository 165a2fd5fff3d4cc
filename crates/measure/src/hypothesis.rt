// The hypothesis that the evidence supports: what is in the gaps beside the strong sender.
ghost use Rattle.std.specs.Prelude.{◌≡◌};
ghost use Rattle.measure.specs.Hypothesis.{is_neighbour, hypothesis_between, hypothesis_of};

use crate::evidence::SecondCarrierEvidence;
use constants::{MAX_OFFSET_HZ, MIN_COHERENCE, MIN_OFFSET_HZ, NON_CW_MIN_HOT, ONE_SIGNAL_MAX_HOT};

// Rust: Hypothesis.
#[derive(Clone, Copy)]
pub enum Hypothesis {
    OneSignal,
    TwoSignalCw { offset_hz: f64 },
    NonCw,
    Unresolved,
}

// Coherent, and as far from the strong carrier as a neighbour can be told.
fn is_neighbour(offset: f64, coherence: f64) -> bool
    ensures { result ≡ is_neighbour offset coherence }
{
    let size = float::abs(offset);
    coherence >= MIN_COHERENCE && size >= MIN_OFFSET_HZ && size <= MAX_OFFSET_HZ
}

// Neither alone nor filled by a steady carrier: the offset decides.
fn between(offset: Option<f64>, coherence: f64) -> Hypothesis
    ensures { result ≡ hypothesis_between offset coherence }
{
    match offset {
        Some(f) if is_neighbour(f, coherence) => Hypothesis::TwoSignalCw { offset_hz: f },
        _ => Hypothesis::Unresolved,
    }
}

// Rust: classify. A hot fraction that is a NaN passes neither of the first two tests.
pub fn classify(e: SecondCarrierEvidence) -> Hypothesis
    ensures { result ≡ hypothesis_of e }
{
    if e.hot_fraction < ONE_SIGNAL_MAX_HOT {
        return Hypothesis::OneSignal;
    }
    if e.hot_fraction > NON_CW_MIN_HOT {
        return Hypothesis::NonCw;
    }
    between(e.offset_hz, e.coherence)
}
