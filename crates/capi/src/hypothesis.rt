// The hypothesis, for C.
ghost use Rattle.std.specs.Prelude.{◌≡◌};
ghost use Rattle.capi.specs.Hypothesis.{classify_called, classify_call};

use cancel::SecondCarrierEvidence;
use figures::{CLASSIFY_FIGURES, given_offset, of_hypothesis};

// It asks nothing and returns 0.
#[unsafe(no_mangle)]
pub extern "C" fn cancel_classify(
    gap_blocks: u64,
    hot_fraction: f64,
    present: u64,
    offset_hz: f64,
    coherence: f64,
    figures: &mut [f64; CLASSIFY_FIGURES],
) -> u64
    ensures { classify_called result figures.new ≡ classify_call gap_blocks hot_fraction present offset_hz coherence }
{
    let offset = given_offset(present, offset_hz);
    *figures = of_hypothesis(cancel::classify(SecondCarrierEvidence {
        gap_blocks: gap_blocks as usize,
        hot_fraction,
        offset_hz: offset,
        coherence,
    }));
    0
}
