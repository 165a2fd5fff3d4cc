// From f64 to f32.
ghost use Rattle.std.specs.Prelude.{◌≡◌, ◌≤◌};
ghost use Rattle.float.specs.Single.{narrow_of};
ghost use Rattle.float.specs.Inner.{Narrowed};

// The pattern of the `f32` nearest to the `f64` with the pattern a: both without their sign, and neither a NaN's.
// Below the exponent's field an `f64` has 52 digits and an `f32` 23, so 29 are dropped, and the fields differ by
// 0x380. A carry out of the digits goes into the field, as it must.
fn narrow_bits(a: u64) -> u64
    requires { a ≤ 0x7ff0_0000_0000_0000 }
    ensures { Narrowed a result }
{
    if a >= 0x47f0_0000_0000_0000 {
        // from 2^128 on
        0x7f80_0000
    } else if a >= 0x3810_0000_0000_0000 {
        // from 2^-126 on
        let y = a - 0x3800_0000_0000_0000;
        (y + 0xfff_ffff + y / 0x2000_0000 % 2) / 0x2000_0000
    } else if a >= 0x3680_0000_0000_0000 {
        // the result is a multiple of 2^-149 and below 2^-126
        let d = a % 0x10_0000_0000_0000 + 0x10_0000_0000_0000;
        let k = 925 - a / 0x10_0000_0000_0000;
        let h = 1u64 << k;
        (d + (h - 1) + (d >> (k + 1)) % 2) >> (k + 1)
    } else {
        0
    }
}

// Rust's `x as f32`. std::num::nearest_f64_to_f32_with_nan promises the same, and takes twice as long.
pub fn narrow(x: f64) -> f32
    ensures { result ≡ narrow_of x }
{
    if x.is_nan() {
        f32::NAN
    } else {
        let b = f64::to_bits(x);
        let s = b / 0x8000_0000_0000_0000;
        let r = narrow_bits(b % 0x8000_0000_0000_0000);
        f32::from_bits((r + s * 0x8000_0000) as u32)
    }
}
