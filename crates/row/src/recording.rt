// A recording as questions 1 to 3 accept it: a sample rate, and samples, two f32 each.
ghost use Rattle.std.specs.Prelude.{◌≡◌, ◌+◌, ◌*◌, ◌/◌, ◌<◌, length, get_or};
ghost use Rattle.std.specs.Float.{nan};
ghost use Rattle.complex.specs.Rows.{z_at};
ghost use Rattle.row.specs.Samples.{Singles, Iq};
ghost use Rattle.row.specs.Window.{Rate, step_of, window_of, samples};

use crate::window::edge_step;
use complex::Complex;

// A sample rate that question 1 accepts.
#[derive(Clone, Copy)]
pub struct SampleRate {
    pub hz: f64,
    pub ghost accepted: { Rate hz },
}

impl SampleRate {
    // The fact stands in a clause where such a value is made, here and in the two `new` below.
    pub fn new(hz: f64) -> SampleRate
        requires { Rate hz }
        ensures { result.hz ≡ hz }
    {
        SampleRate { hz }
    }

    // The step of the edge window.
    pub fn step(self) -> usize
        ensures { result ≡ step_of self.hz }
    {
        edge_step(self.hz)
    }

    // The edge window, 8 times the step: a block of the measures.
    pub fn window(self) -> usize
        ensures { result ≡ window_of self.hz }
    {
        8 * edge_step(self.hz)
    }
}

// Samples that questions 2 and 3 accept.
#[derive(Clone, Copy)]
pub struct Samples<'a> {
    pub iq: &'a [f32],
    pub ghost singles: { Singles iq.now },
    pub ghost accepted: { Iq iq.now },
}

impl<'a> Samples<'a> {
    pub fn new(iq: &'a [f32]) -> Samples<'a>
        requires { Iq iq.now }
        ensures { result.iq.now ≡ iq.now }
    {
        Samples { iq }
    }

    // How many complex samples there are.
    pub fn count(&self) -> usize
        ensures { result ≡ samples self.now.iq.now }
    {
        self.iq.len() / 2
    }

    // A part of a sample, widened.
    pub fn at(&self, i: usize) -> f64
        requires { i < length self.now.iq.now }
        ensures { result ≡ get_or self.now.iq.now i nan }
    {
        self.iq[i] as f64
    }

    // Sample k, widened.
    pub fn sample(&self, k: usize) -> Complex
        requires { 2 * k + 1 < length self.now.iq.now }
        ensures { result ≡ z_at self.now.iq.now k }
    {
        Complex::new(self.at(2 * k), self.at(2 * k + 1))
    }
}

// Samples at a rate.
#[derive(Clone, Copy)]
pub struct Recording<'a> {
    pub samples: Samples<'a>,
    pub rate: SampleRate,
}

impl<'a> Recording<'a> {
    pub fn new(iq: &'a [f32], fs: f64) -> Recording<'a>
        requires iq { Iq iq.now }
        requires rate { Rate fs }
        ensures { (result.samples.iq.now ≡ iq.now) × (result.rate.hz ≡ fs) }
    {
        Recording {
            samples: Samples::new(iq),
            rate: SampleRate::new(fs),
        }
    }
}
