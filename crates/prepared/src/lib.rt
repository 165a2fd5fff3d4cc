// What the measures are made from. Both begin with the work slice made ready, with the blocks' means and classes, and
// rank the powers of the blocks of a class; the residual check alone takes the fits off the means first.
#![tactic(auto)]

pub mod classed;
pub mod grid;
pub mod left;
pub mod powers;
pub mod prepare;
pub mod sections;
