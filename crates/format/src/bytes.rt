// A recording as bytes: little-endian f32, real then imaginary.
ghost use Rattle.std.specs.Prelude.{◌≡◌, ◌+◌, ◌*◌, ◌/◌, ◌^◌, ◌≤◌, ◌<◌, length};
ghost use Rattle.lists.specs.Fill.{fill};
ghost use Rattle.format.specs.Bytes.{bytes_ok, pattern_at, part_at};

use std::num::f32_from_bits_with_nan;

// 2, in the program: the bytes are a multiple of 8, at most 16,384.
#[tactic(auto, unfolding(crate::specs::Bytes::bytes_ok))]
pub fn bytes_ok(n: usize) -> bool
    ensures { result ≡ bytes_ok n }
{
    n % 8 == 0 && n <= 16384
}

pub fn number_of(a: u8, b: u8, c: u8, d: u8) -> u32
    ensures { result ≡ a + 2 ^ 8 * b + 2 ^ 16 * c + 2 ^ 24 * d }
{
    u32::from_le_bytes([a, b, c, d])
}

// The bit pattern of part i.
pub fn pattern(bytes: &[u8], i: usize) -> u32
    requires { i < length bytes.now / 4 }
    ensures { result ≡ pattern_at bytes.now i }
{
    let [a, b, c, d] = *bytes[4 * i..].first_chunk::<4>().unwrap();
    number_of(a, b, c, d)
}

fn part(bytes: &[u8], i: usize) -> f32
    requires { i < length bytes.now / 4 }
    ensures { result ≡ part_at bytes.now i }
{
    f32_from_bits_with_nan(pattern(bytes, i))
}

// The f32 that the bytes hold go to the start of `out`; answers how many.
#[tactic(auto, using(crate::proofs::Laws::laws))]
pub fn samples(bytes: &[u8], out: &mut [f32]) -> usize
    requires { length bytes.now / 4 ≤ length out.old }
    ensures value { result ≡ length bytes.now / 4 }
    ensures out_after { out.new ≡ fill out.old 0 (part_at bytes.now) (length bytes.now / 4) }
{
    let n = bytes.len() / 4;
    // By its number: of what iter_mut().zip lends nothing is known once it is back.
    for (i, x) in out[..n].iter_mut().enumerate() {
        *x = part(bytes, i);
    }
    n
}
