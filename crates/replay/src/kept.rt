// What is kept from record to record.
use crate::sizes::{ELEMENTS, FITS, FLOATS};

#[derive(Drop)]
pub struct Kept {
    // The recording, and what a call has to leave of it.
    pub iq: [f32; FLOATS],
    pub left: [f32; FLOATS],
    // The two lists, of which a call is given the first numbers, or which it has to answer.
    pub elements: [f64; ELEMENTS],
    pub fits: [f64; FITS],
}

impl Kept {
    // Nothing is put yet.
    pub const NOTHING: Kept = Kept {
        iq: [0.0; FLOATS],
        left: [0.0; FLOATS],
        elements: [0.0; ELEMENTS],
        fits: [0.0; FITS],
    };
}
