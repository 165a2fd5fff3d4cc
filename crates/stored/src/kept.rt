// What is kept from record to record: the recording, what a call has to leave of it, a list of elements and one of
// fits. Each record here puts numbers into one of these; those that would not fit are left out.
use crate::units::{count, double, half, single};
use std::num::nearest_u32_to_f32;

// A part of a sample: a whole number from -32,768 on, stored from 0 on, times the scale.
fn part(stored: u32, scale: f32) -> f32 {
    (nearest_u32_to_f32(stored) - 32768.0) * scale
}

// A recording: its count of floats, the scale, and then 16 bits for each float.
pub fn recording(body: &[u8], iq: &mut [f32]) {
    let scale = single(body, 1);
    for (i, float) in iq.iter_mut().take(count(body, 0)).enumerate() {
        *float = part(half(body, 4 + i), scale);
    }
}

// Floats of any bits: where the first goes, and then a unit for each.
pub fn floats(body: &[u8], row: &mut [f32]) {
    let Some(units) = body.get(4..) else {
        return;
    };
    if let Some(places) = row.get_mut(count(body, 0)..) {
        if units.len() / 4 <= places.len() {
            format::samples(units, places);
        }
    }
}

// The floats of one row to the start of another.
pub fn copied(from: &[f32], to: &mut [f32]) {
    let n = from.len().min(to.len());
    to[..n].copy_from_slice(&from[..n]);
}

// A list of numbers.
pub fn list(body: &[u8], row: &mut [f64]) {
    for (number, bytes) in row.iter_mut().zip(body.chunks_exact(8)) {
        *number = double(bytes, 0);
    }
}
