ghost use Rattle.std.specs.Prelude.{◌≡◌, ◌*◌, ◌≤◌, length};
ghost use Rattle.elements.specs.Element.{ELEMENT};
ghost use Rattle.fits.specs.List.{FIT};

use elements::Elements;
use fits::{Fits, StrongSender};

// A given estimate, as callers hand it: a carrier, its step, and two flat lists with how many records of each count.
// Any numbers and counts may stand here; question 7 asks about them, so that the lists are no `Places`, whose type says
// that a list has as many places as its count.
#[derive(Clone, Copy)]
pub struct GivenEstimate<'a> {
    pub carrier_hz: f64,
    pub carrier_step_hz: f64,
    pub elements: &'a [f64],
    pub element_count: usize,
    pub fits: &'a [f64],
    pub fit_count: usize,
}

impl<'a> GivenEstimate<'a> {
    // The sender as the measures read it, where each count fits its list, as a yes to question 7 says.
    pub fn sender(&self) -> StrongSender<'a>
        requires elements_room { ELEMENT * self.now.element_count ≤ length self.now.elements.now }
        requires fits_room { FIT * self.now.fit_count ≤ length self.now.fits.now }
        ensures carrier { result.carrier_hz ≡ self.now.carrier_hz }
        ensures elements { (result.elements.numbers.now ≡ self.now.elements.now) × (result.elements.count ≡ self.now.element_count) }
        ensures fits { (result.fits.numbers.now ≡ self.now.fits.now) × (result.fits.count ≡ self.now.fit_count) }
    {
        StrongSender {
            carrier_hz: self.carrier_hz,
            elements: Elements::new(self.elements, self.element_count),
            fits: Fits::new(self.fits, self.fit_count),
        }
    }
}
