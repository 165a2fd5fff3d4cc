// The residual check: what subtracting an estimate would leave of the strong sender, over the level of its neighbour.
// Rust: ratio_db and residual_check, lines 471 to 511 of cancel.rs; residual_check goes in this order:
//
//     483 to 485, 492   the blocks' means and their classes       prepared::prepare
//     486 to 491        the fits subtracted from the means        prepared::left
//     493 to 502        the powers of each class                  prepared::powers
//     503 to 510        the levels and the answer                 here
ghost use Rattle.std.specs.Prelude.{◌≡◌, ◌*◌, ◌≤◌, length};
ghost use Rattle.row.specs.Window.{window_of, step_blocks};
ghost use Rattle.elements.specs.Element.{elements_in};
ghost use Rattle.fits.specs.List.{fits_in};
ghost use Rattle.measure.specs.Residual.{ratio_db, floored, residual_check_of, clean_of};
ghost use Rattle.measure.specs.Inner.{figures_from, residual_held};

use crate::ready::{Ready, make_ready};
use classes::BlockClass;
use constants::{
    CLEAN_EDGE_OVER_NEIGHBOUR_DB, CLEAN_INTERIOR_OVER_NEIGHBOUR_DB, MIN_POSITIVE,
    NEIGHBOUR_PERCENTILE,
};
use fits::{Fits, StrongSender};
use prepared::classed::ClassedMeans;
use prepared::grid::Blocks;
use prepared::left::subtract_from_means;
use prepared::powers::{Level, level_of};
use row::Recording;
use trig::Sines;

// Rust: ResidualCheck.
#[derive(Clone, Copy)]
pub struct ResidualCheck {
    pub edge_over_neighbour_db: f64,
    pub interior_over_neighbour_db: f64,
    pub edge_blocks: usize,
    pub interior_blocks: usize,
    pub gap_blocks: usize,
}

impl ResidualCheck {
    // Rust: ResidualCheck::clean. A NaN passes neither comparison.
    pub fn clean(self) -> bool
        ensures { result ≡ clean_of self }
    {
        self.edge_over_neighbour_db <= CLEAN_EDGE_OVER_NEIGHBOUR_DB
            && self.interior_over_neighbour_db <= CLEAN_INTERIOR_OVER_NEIGHBOUR_DB
    }
}

// Rust: ratio_db. The floor that the Rust puts under `nb` is put under the lower side here, where it is known to be
// there.
fn ratio_db(num: Option<f64>, den: Option<f64>) -> f64
    ensures { result ≡ ratio_db num (floored den) }
{
    let Some(n) = num else {
        return f64::INFINITY;
    };
    let Some(v) = den else {
        return f64::INFINITY;
    };
    let d = float::max(v, MIN_POSITIVE);
    if d > 0.0 {
        10.0 * logarithm::log10(float::max(n, MIN_POSITIVE) / d)
    } else {
        f64::INFINITY
    }
}

// Rust: the ResidualCheck at the end of residual_check.
fn check_of(edge: Level, interior: Level, gap: Level) -> ResidualCheck
    ensures { result ≡ figures_from edge interior gap }
{
    ResidualCheck {
        edge_over_neighbour_db: ratio_db(edge.value, gap.value),
        interior_over_neighbour_db: ratio_db(interior.value, gap.value),
        edge_blocks: edge.count,
        interior_blocks: interior.count,
        gap_blocks: gap.count,
    }
}

// Past the block means and their classes. What is left of the means, and the powers, go to what is free of the work
// slice. That the window is the rate's stands in a clause: `Blocks` does not say so, `Grid` does, and it is needed of
// blocks without a grid only here.
pub fn residual(
    blocks: Blocks,
    held: &ClassedMeans,
    fits: &Fits,
    free: &mut [f64],
    sine: &Sines,
) -> ResidualCheck
    requires window { blocks.window ≡ window_of blocks.fs }
    requires all { length held.now.codes.now ≡ blocks.count }
    requires room { 3 * blocks.count ≤ length free.old }
    ensures { result ≡ residual_held held.now.means.now held.now.codes.now blocks.count blocks.fs (fits_in fits.now.numbers.now fits.now.count) }
{
    let (left, powers) = free.split_at_mut(2 * blocks.count);
    subtract_from_means(blocks, held.means, fits, left, sine);
    let rest = ClassedMeans {
        means: left,
        codes: held.codes,
    };
    let edge = level_of(&rest, BlockClass::Edge, 0.5, powers);
    let interior = level_of(&rest, BlockClass::Interior, 0.5, powers);
    let gap = level_of(&rest, BlockClass::Gap, NEIGHBOUR_PERCENTILE, powers);
    check_of(edge, interior, gap)
}

// Rust: residual_check. What room the work slice has stands in a clause, as in fits/src/estimate.rt.
pub fn residual_check(
    recording: &Recording,
    sender: &StrongSender,
    work: &mut [f64],
    sine: &Sines,
) -> ResidualCheck
    requires { 4 * step_blocks recording.now.samples.iq.now recording.now.rate.hz ≤ length work.old }
    ensures { result ≡ residual_check_of recording.now.samples.iq.now recording.now.rate.hz sender.now.carrier_hz
        (fits_in sender.now.fits.numbers.now sender.now.fits.count) (elements_in sender.now.elements.numbers.now sender.now.elements.count) }
{
    let Ready { classed, free } = make_ready(recording, sender, work, sine);
    residual(classed.grid.blocks, &classed.held, &sender.fits, free, sine)
}
