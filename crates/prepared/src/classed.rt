// Blocks once they are classed: the mean of each, as a complex number, and the number of its class.
ghost use Rattle.std.specs.Prelude.{◌≡◌, ◌*◌, ◌≤◌, length, take, drop};

use crate::grid::Grid;
use crate::sections::{CLASSES, SIDES};

#[derive(Clone, Copy)]
pub struct ClassedMeans<'a> {
    pub means: &'a [f64],
    pub codes: &'a [f64],
    pub ghost one_each: { length means.now ≡ 2 * length codes.now },
}

impl<'a> ClassedMeans<'a> {
    // As they stand in a prepared work slice of so many blocks.
    pub fn new(work: &'a [f64], blocks: usize) -> ClassedMeans<'a>
        requires { 3 * blocks ≤ length work.now }
        ensures { (result.means.now ≡ take (2 * blocks) work.now) × (result.codes.now ≡ take blocks (drop (2 * blocks) work.now)) }
    {
        ClassedMeans {
            means: &work[..CLASSES * blocks],
            codes: &work[CLASSES * blocks..SIDES * blocks],
        }
    }
}

// All blocks of a grid.
#[derive(Clone, Copy)]
pub struct Classed<'r, 'w> {
    pub grid: Grid<'r>,
    pub held: ClassedMeans<'w>,
    pub ghost all: { length held.codes.now ≡ grid.blocks.count },
}
