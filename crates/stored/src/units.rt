// A record's numbers: 32-bit units, the least byte first, and numbers of two units, the lower one first. A unit that
// the record does not have is 0, so that no file is too short to be read.
ghost use Rattle.std.specs.Prelude.{◌≡◌, ◌+◌, ◌*◌, ◌/◌, ◌^◌, ◌<◌, ◌≤◌, length};
ghost use Rattle.stored.specs.Units.{unit_in, long_at, double_at};

use format::bytes::{number_of, pattern};
use std::num::{f32_from_bits_with_nan, f64_from_bits_with_nan};

fn joined_units(low: u32, high: u32) -> u64
    ensures { result ≡ low + 2 ^ 32 * high }
{
    u64::from(low) + 0x1_0000_0000 * u64::from(high)
}

// 16 bits: half a unit.
pub fn half(bytes: &[u8], i: usize) -> u32 {
    if i < bytes.len() / 2 {
        number_of(bytes[2 * i], bytes[2 * i + 1], 0, 0)
    } else {
        0
    }
}

#[tactic(auto, unfolding(crate::specs::Units::unit_in))]
pub fn unit(bytes: &[u8], i: usize) -> u32
    ensures { result ≡ unit_in bytes.now i }
{
    if i < bytes.len() / 4 {
        pattern(bytes, i)
    } else {
        0
    }
}

// A unit that is a count or a length.
pub fn count(bytes: &[u8], i: usize) -> usize
    ensures { result ≡ unit_in bytes.now i }
{
    unit(bytes, i) as usize
}

// The number of units i and i + 1.
#[tactic(auto, unfolding(crate::specs::Units::unit_in, crate::specs::Units::long_at))]
pub fn long(bytes: &[u8], i: usize) -> u64
    ensures { result ≡ long_at bytes.now i }
{
    if i < bytes.len() / 4 {
        joined_units(unit(bytes, i), unit(bytes, i + 1))
    } else {
        0
    }
}

// The f64 of units i and i + 1.
#[tactic(auto, unfolding(crate::specs::Units::double_at))]
pub fn double(bytes: &[u8], i: usize) -> f64
    ensures { result ≡ double_at bytes.now i }
{
    f64_from_bits_with_nan(long(bytes, i))
}

// The f32 of unit i.
pub fn single(bytes: &[u8], i: usize) -> f32 {
    f32_from_bits_with_nan(unit(bytes, i))
}
