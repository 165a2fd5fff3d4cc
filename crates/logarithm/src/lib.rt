// The logarithm to base 10: of m by the series of the inverse hyperbolic tangent, and of 2^e by e.
#![tactic(auto)]

ghost use Rattle.std.specs.Prelude.{◌≡◌};
ghost use Rattle.float.specs.Ops.{of, ◌⊖◌};
ghost use Rattle.logarithm.specs.Logarithm.{series, log_of, log10_of};
ghost use Rattle.logarithm.specs.Inner.{digits_of, field_of};

use trig::consts::{LN_2, LN_10};

// 2^54: times this, every number below the normal ones is a normal one.
const TWO_54: f64 = 18014398509481984.0;

// The series, written out: a loop would have to keep all powers of q, since the smallest terms are added first.
fn sum(q: f64) -> f64
    ensures { result ≡ series q }
{
    let p3 = q * q * q;
    let p5 = p3 * q * q;
    let p7 = p5 * q * q;
    let p9 = p7 * q * q;
    let p11 = p9 * q * q;
    let p13 = p11 * q * q;
    let p15 = p13 * q * q;
    let p17 = p15 * q * q;
    let p19 = p17 * q * q;
    let p21 = p19 * q * q;
    let p23 = p21 * q * q;
    p23 / 23.0
        + p21 / 21.0
        + p19 / 19.0
        + p17 / 17.0
        + p15 / 15.0
        + p13 / 13.0
        + p11 / 11.0
        + p9 / 9.0
        + p7 / 7.0
        + p5 / 5.0
        + p3 / 3.0
        + q / 1.0
}

fn log_parts(m: f64, e: f64) -> f64
    ensures { result ≡ log_of m e }
{
    (e * LN_2 + 2.0 * sum((m - 1.0) / (m + 1.0))) / LN_10
}

// Of the bit pattern b of a normal number: its digits t under the exponent of 1 are a number from 1 up to 2, and from
// 1.5 on half of that, with the exponent's field one more.
#[tactic(auto, using(std::proofs::lemmas::Float::not_nan_f64_bits))]
fn log_bits(b: u64, bias: f64) -> f64
    ensures { result ≡ log_of (digits_of b) (of (field_of b) ⊖ bias) }
{
    let t = b % 0x10_0000_0000_0000;
    let half = t / 0x8_0000_0000_0000;
    let m = f64::from_bits((1023 - half) * 0x10_0000_0000_0000 + t);
    let e = float::exact((b / 0x10_0000_0000_0000 + half) as usize) - bias;
    log_parts(m, e)
}

// Rust: f64::log10. A number below the normal ones is first multiplied by 2^54.
pub fn log10(y: f64) -> f64
    ensures { result ≡ log10_of y }
{
    if y == 0.0 {
        return f64::NEG_INFINITY;
    }
    if 0.0 < y {
        if y < f64::INFINITY {
            if y < f64::MIN_POSITIVE {
                return log_bits(f64::to_bits(y * TWO_54), 1077.0);
            }
            return log_bits(f64::to_bits(y), 1023.0);
        }
        return f64::INFINITY;
    }
    f64::NAN
}
