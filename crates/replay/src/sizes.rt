// The most numbers that are kept, or lent to a call. A recording has at most 2,048 samples, so B is at most that: its
// half in places, four times it in work, and some numbers more that are no place.
use elements::ELEMENT;
use fits::FIT;

pub const FLOATS: usize = 4096;

pub const ELEMENTS: usize = 1024 * ELEMENT + 16;

pub const FITS: usize = 1024 * FIT + 16;

pub const WORK: usize = 8208;
