// The derotated samples of a stretch, kept in a lent slice: slope and gain both read them, and to read one costs less
// than to derotate it again. A slice too short for all of them keeps the first ones, and the others are derotated where
// they are read.
ghost use Rattle.std.specs.Prelude.{◌≡◌, ◌+◌, ◌*◌, ◌/◌, ◌≤◌, ◌<◌, min, length};
ghost use Rattle.row.specs.Blocks.{derot};
ghost use Rattle.interiors.specs.Inner.{Derotated};

use crate::stretch::Stretch;
use complex::Complex;
use trig::Sines;

// A row of complex numbers: the first samples.
#[derive(Clone, Copy)]
pub struct Kept<'a> {
    pub stretch: Stretch<'a>,
    pub numbers: &'a [f64],
    pub ghost first_ones: { Derotated stretch.samples.iq.now stretch.cyc stretch.i0 0 (length numbers.now / 2) numbers.now },
}

impl<'a> Kept<'a> {
    // As many samples as have room.
    pub fn new(stretch: Stretch<'a>, room: &'a mut [f64], sine: &Sines) -> Kept<'a>
        ensures same_stretch { result.stretch ≡ stretch.entry }
        ensures count { length result.numbers.now / 2 ≡ min stretch.entry.len (length room.old / 2) }
    {
        let count = stretch.len.min(room.len() / 2);
        let numbers = &mut room[..2 * count];
        derotate(&stretch, numbers, sine);
        Kept { stretch, numbers }
    }

    // How many are kept.
    pub fn count(&self) -> usize
        ensures { result ≡ length self.now.numbers.now / 2 }
    {
        self.numbers.len() / 2
    }

    // Sample j from the start of the stretch on, derotated; it may lie past the end of the stretch.
    pub fn derotated(&self, j: usize, sine: &Sines) -> Complex
        requires { 2 * (self.now.stretch.i0 + j) + 1 < length self.now.stretch.samples.iq.now }
        ensures { let s = self.now.stretch in result ≡ derot s.samples.iq.now s.cyc (s.i0 + j) }
    {
        if j < self.count() {
            return complex::get(self.numbers, j);
        }
        let s = &self.stretch;
        row::derotated(&s.samples, s.cyc, s.i0 + j, sine)
    }
}

// The first samples of a stretch fill the slice.
pub fn derotate(stretch: &Stretch, numbers: &mut [f64], sine: &Sines)
    requires { length numbers.old / 2 ≤ stretch.now.len }
    ensures { let s = stretch.now in Derotated s.samples.iq.now s.cyc s.i0 0 (length numbers.new / 2) numbers.new }
{
    let count = numbers.len() / 2;
    // j is the sample's number. Of pairs that chunks_exact_mut lends nothing is known once they are back.
    for j in 0..count {
        complex::put(numbers, j, stretch.derotated(j, sine));
    }
}
