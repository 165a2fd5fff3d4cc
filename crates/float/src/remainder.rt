// Remainders: `%` as its definition has it, with no call of C's fmod; rem_euclid, and rem_euclid by 1.0.
ghost use Rattle.std.specs.Prelude.{◌≡◌, ◌*◌, ◌%◌, ◌^◌, ◌<◌, ◌≤◌};
ghost use Rattle.std.specs.Float.Ieee as Ieee;
ghost use Rattle.std.specs.Float.{binary64};
ghost use Rattle.float.specs.Inner.{counted, InUnits};
ghost use Rattle.float.specs.Ops.{one};
ghost use Rattle.float.specs.Remainder.{rem_euclid_of};

use crate::compare::abs;
use crate::size::finite;
use crate::whole::{TWO_52, exact};

// digits * 2^exponent of the smallest values
#[derive(Clone, Copy)]
struct Units {
    digits: u64,
    exponent: u64,
}

// What a bit pattern with the sign clear stands for.
#[tactic(auto, using(crate::proofs::Modulo::low_units, crate::proofs::Modulo::high_units))]
fn in_units(b: u64) -> Units
    requires { b < 0x7ff0_0000_0000_0000 }
    ensures { InUnits b result.digits result.exponent }
{
    if b < 0x10_0000_0000_0000 {
        return Units {
            digits: b,
            exponent: 0,
        };
    }
    Units {
        digits: 0x10_0000_0000_0000 + b % 0x10_0000_0000_0000,
        exponent: (b >> 52) - 1,
    }
}

// The bit pattern of 2^e smallest values.
fn power_bits(e: u64) -> u64
    requires { e ≤ 2045 }
    ensures { (result < 0x7ff0_0000_0000_0000) × (counted result ≡ 2 ^ e) }
{
    if e < 52 {
        return 1 << e;
    }
    (e - 51) * 0x10_0000_0000_0000
}

// r * 2^k % n for a few digits k.
fn few_digits(r: u64, k: u64, n: u64) -> u64
    requires r_bound { r < n }
    requires n_bound { n < 2 ^ 53 }
    requires k_bound { k < 11 }
    ensures { result ≡ r * 2 ^ k % n }
{
    (r << k) % n
}

// m * 2^k % n, eleven digits at a time.
fn shifted(m: u64, k: u64, n: u64) -> u64
    requires n_nonzero { 0 < n }
    requires n_bound { n < 2 ^ 53 }
    ensures { result ≡ m * 2 ^ k % n }
{
    let mut r = m % n;
    // The turns are only counted: there is nothing else to go over.
    for _ in 0..k / 11 {
        r = r * 2048 % n;
    }
    few_digits(r, k % 11, n)
}

// a % b of two bit patterns with the sign clear, the first not below the second.
fn rem_bits(x: u64, y: u64) -> f64
    requires x_bound { x < 0x7ff0_0000_0000_0000 }
    requires y_bound { y < 0x7ff0_0000_0000_0000 }
    requires y_nonzero { 0 < counted y }
    requires order { counted y ≤ counted x }
    ensures { result ≡ Ieee.rem binary64 (Ieee.of_bits binary64 x) (Ieee.of_bits binary64 y) }
{
    let a = in_units(x);
    let b = in_units(y);
    let r = shifted(a.digits, a.exponent - b.exponent, b.digits);
    let p = power_bits(b.exponent);
    exact(r as usize) * f64::from_bits(p)
}

// a % b, which is a itself where |a| is below |b|.
fn rem(a: f64, b: f64) -> f64
    ensures { result ≡ Ieee.rem binary64 a b }
{
    let size = abs(a);
    let by = abs(b);
    if size < by {
        return a;
    }
    if !finite(size) {
        return f64::NAN;
    }
    if by > 0.0 {
        let r = rem_bits(f64::to_bits(size), f64::to_bits(by));
        if a < 0.0 {
            return -r;
        }
        return r;
    }
    f64::NAN
}

// Rust: f64::rem_euclid.
#[tactic(auto, unfolding(crate::specs::Remainder::rem_euclid_of))]
pub fn rem_euclid(a: f64, b: f64) -> f64
    ensures { result ≡ rem_euclid_of a b }
{
    let r = rem(a, b);
    let by = abs(b);
    if r < 0.0 { r + by } else { r }
}

// rem_euclid(a, 1.0). Below 2^52 in size, |a| added to 2^52 is rounded to a whole number next to it,
// and what |a| is over or under that number is exact.
pub fn rem_one(a: f64) -> f64
    ensures { result ≡ rem_euclid_of a one }
{
    if a < 0.0 {
        let m = -a;
        if m < TWO_52 {
            let over = m - ((m + TWO_52) - TWO_52);
            if over > 0.0 { 1.0 - over } else { -over }
        } else {
            rem_euclid(a, 1.0)
        }
    } else if a < TWO_52 {
        let over = a - ((a + TWO_52) - TWO_52);
        if over < 0.0 { over + 1.0 } else { over }
    } else {
        rem_euclid(a, 1.0)
    }
}
