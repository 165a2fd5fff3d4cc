// The figure of clean, and a residual check that is given as its figures.
ghost use Rattle.std.specs.Prelude.{◌≡◌};
ghost use Rattle.figures.specs.Clean.{given_check, clean_figures};

use crate::flag::flag;
use crate::places::{CHECK_FIGURES, CLEAN_FIGURES};
use measure::ResidualCheck;

// Of the five figures the two ratios count. The three counts of blocks change no answer of clean and are not read.
pub fn given_check(check: &[f64; CHECK_FIGURES]) -> ResidualCheck
    ensures { result ≡ given_check check.now }
{
    ResidualCheck {
        edge_over_neighbour_db: check[0],
        interior_over_neighbour_db: check[1],
        edge_blocks: 0,
        interior_blocks: 0,
        gap_blocks: 0,
    }
}

pub fn of_clean(clean: bool) -> [f64; CLEAN_FIGURES]
    ensures { result ≡ clean_figures clean }
{
    [flag(clean)]
}
