// The value at a rank of a list: select::percentile.
#![tactic(auto)]

pub mod select;
