// The calls open to callers. Each asks 01's questions in its order, then does the work, and answers its result or the
// refusal; none has a `requires`, and the questions themselves are not open. The run stands here; the calls that look
// for the strong sender stand in crate `strong`, those at a given estimate in `given`, `classify`, which asks nothing,
// in `measure`: all are handed on. With them goes what a caller needs to lend and read lists: `blocks_for`, the given
// estimate, the numbers of a record (ELEMENT, FIT), and `element_at` and `fit_at`, which read the record at a place and
// require that the list has that place.
#![tactic(auto)]

mod running;

pub use classes::ClassCounts;
pub use elements::{AmplitudeRow, ELEMENT, Found, KeyedElement, element_at};
pub use engine::RunFigures;
pub use fits::{ElementFit, Estimate, FIT, fit_at};
pub use given::{BlockClasses, block_classes, residual_check, second_carrier_evidence, subtract};
pub use measure::{Hypothesis, ResidualCheck, SecondCarrierEvidence, classify};
pub use questions::{GivenEstimate, Refusal, blocks_for};
pub use running::run;
pub use strong::{amplitude_row, estimate_strong, find_elements, fit_elements};
