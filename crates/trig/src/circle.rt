// The sine and the cosine of an angle, by a table of 1,025 sines of the first quarter of a turn.
ghost use Rattle.std.specs.Prelude.{◌≡◌, ◌*◌, ◌^◌, ◌<◌, true, if◌then◌else◌, nat_le};
ghost use Rattle.std.specs.Float.Ieee.{le};
ghost use Rattle.float.specs.Ops.{of, ◌⊕◌};
ghost use Rattle.float.specs.Compare.{abs_of};
ghost use Rattle.float.specs.Whole.{round_of};
ghost use Rattle.trig.specs.Inner.{folded};
ghost use Rattle.trig.specs.Circle.{rest_of, index_of, within, small_sine, small_cosine, entry_of, quarter_sines, sine_at, sin_of, cos_of};

use crate::choice::pick;
use crate::consts::PI;
use crate::table::sine_table;
use float::TWO_52;

// 3 × 2^51: a sum with it from 2^52 up to 2^53 has no digit after the point, and its last digits are those of the whole
// number that was added, negative or not.
const MARK: f64 = 6755399441055744.0;

// The size of round(y). The sum with 2^52 has a half go to the even one of its neighbours. It is shorter than
// float::round, as `sin_cos` is compiled into the loops that call it.
fn nearest(y: f64) -> f64
    requires { le (abs_of y) (of 8191) ≡ true }
    ensures { result ≡ round_of (abs_of y) }
{
    let m = float::abs(y);
    let t = (m + TWO_52) - TWO_52;
    pick(m - t >= 0.5, t + 1.0, t)
}

// MARK + round(y). The sum with MARK rounds y to the nearest whole number. Only where y may lie half-way between two
// does the way of rounding matter.
fn marked(y: f64) -> f64
    requires { le (abs_of y) (of 8191) ≡ true }
    ensures { result ≡ round_of y ⊕ of (3 * 2 ^ 51) }
{
    let w = y + MARK;
    let d = y + (MARK - w);
    if d * d < 0.25 {
        w
    } else {
        let n = nearest(y);
        pick(y < 0.0, -n, n) + MARK
    }
}

// An angle: its nearest place among the 4,096 of a turn, and what is left of it.
#[derive(Clone, Copy)]
struct Turn {
    at: usize,
    rest: f64,
}

// MARK - w is -i, so that x + (MARK - w) × (π/2048) is r.
fn turned(x: f64) -> Turn
    requires { le (abs_of x) (of 7) ≡ true }
    ensures { (result.at ≡ within (index_of x)) × (result.rest ≡ rest_of x) × (result.at < 4096) }
{
    let w = marked(x * (2048.0 / PI));
    Turn {
        at: (f64::to_bits(w) % 4096) as usize,
        rest: x + (MARK - w) * (PI / 2048.0),
    }
}

fn small_sine(r: f64) -> f64
    ensures { result ≡ small_sine r }
{
    r - r * r * r / 6.0
}

fn small_cosine(r: f64) -> f64
    ensures { result ≡ small_cosine r }
{
    1.0 - r * r / 2.0 + r * r * r * r / 24.0
}

// The place in the first quarter that has the same sine, but for the sign.
fn fold(p: usize) -> usize
    ensures { (result ≡ folded p) × (result < 1025) }
{
    let h = p % 2048;
    if h <= 1024 { h } else { 2048 - h }
}

// The sign's bit of the sine of p/4096 turn: past half a turn it is negative.
fn sign_at(p: usize) -> u64
    ensures { result ≡ (if nat_le p 2048 then 0 else 2 ^ 63) }
{
    if p <= 2048 { 0 } else { 0x8000_0000_0000_0000 }
}

// The sine and the cosine of one angle.
#[derive(Clone, Copy)]
pub struct SinCos {
    pub sin: f64,
    pub cos: f64,
}

// The sines of the first quarter of a turn. The outermost caller makes them once and lends them: `let sine =
// Sines::new();`.
#[derive(Drop)]
pub struct Sines {
    quarter: [f64; 1025],
    pub ghost of_table: { quarter ≡ quarter_sines },
}

impl Sines {
    pub fn new() -> Sines {
        Sines {
            quarter: sine_table(),
        }
    }

    // An entry of the table.
    fn entry(&self, k: usize) -> f64
        requires { k < 1025 }
        ensures { result ≡ entry_of k }
    {
        self.quarter[k]
    }

    // The sine of p/4096 turn, from the entry k that it is but for the sign. The sign goes into the bit pattern, since
    // a choice between v and -v is compiled to a branch, which the angles decide.
    fn sine_at(&self, k: usize, p: usize) -> f64
        requires p_bound { p < 4096 }
        requires k_bound { k < 1025 }
        requires k_value { k ≡ folded p }
        ensures { result ≡ sine_at p }
    {
        let v = self.entry(k);
        f64::from_bits(f64::to_bits(v) + sign_at(p))
    }

    fn within_seven(&self, x: f64) -> SinCos
        requires { le (abs_of x) (of 7) ≡ true }
        ensures { (result.sin ≡ sin_of x) × (result.cos ≡ cos_of x) }
    {
        let p = turned(x);
        let at = p.at;
        let s = small_sine(p.rest);
        let c = small_cosine(p.rest);
        // The cosine is the sine a quarter of a turn further, whose place is as far from 1,024 as k is from 0.
        let k = fold(at);
        let v = self.sine_at(k, at);
        let w = self.sine_at(1024 - k, (at + 1024) % 4096);
        SinCos {
            sin: v * c + w * s,
            cos: w * c - v * s,
        }
    }

    // Compiled into the loops that call it: as a call it takes half as long again.
    #[inline(always)]
    pub fn sin_cos(&self, x: f64) -> SinCos
        ensures { (result.sin ≡ sin_of x) × (result.cos ≡ cos_of x) }
    {
        if x <= 7.0 {
            if -7.0 <= x {
                return self.within_seven(x);
            }
        }
        SinCos { sin: 0.0, cos: 0.0 }
    }

    // Rust: f64::sin.
    pub fn sin(&self, x: f64) -> f64
        ensures { result ≡ sin_of x }
    {
        let p = self.sin_cos(x);
        p.sin
    }

    // Rust: f64::cos.
    pub fn cos(&self, x: f64) -> f64
        ensures { result ≡ cos_of x }
    {
        let p = self.sin_cos(x);
        p.cos
    }
}
