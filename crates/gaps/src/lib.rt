// What the evidence counts in the gaps of a strong sender: the reference level, the gap blocks above HOT_FACTOR times
// it, and the pairs of consecutive gap blocks that are both above PAIR_FACTOR times it.
#![tactic(auto)]

pub mod pairs;
pub mod reference;
