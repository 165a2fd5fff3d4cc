// A stretch of a recording, derotated by a carrier of cyc cycles a sample: its len samples from sample i0 on.
ghost use Rattle.std.specs.Prelude.{◌≡◌, ◌+◌, ◌*◌, ◌≤◌, ◌<◌, length};
ghost use Rattle.row.specs.Blocks.{derot};

use complex::Complex;
use row::Samples;
use trig::Sines;

#[derive(Clone, Copy)]
pub struct Stretch<'a> {
    pub samples: Samples<'a>,
    pub cyc: f64,
    pub i0: usize,
    pub len: usize,
    pub ghost within: { 2 * (i0 + len) ≤ length samples.iq.now },
}

impl<'a> Stretch<'a> {
    // Its sample j.
    pub fn derotated(&self, j: usize, sine: &Sines) -> Complex
        requires { j < self.now.len }
        ensures { result ≡ derot self.now.samples.iq.now self.now.cyc (self.now.i0 + j) }
    {
        row::derotated(&self.samples, self.cyc, self.i0 + j, sine)
    }
}
