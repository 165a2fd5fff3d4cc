// Whole numbers: Rust's floor, ceil, round and `as usize`, and a whole number as an f64.
// std's floor, ceil, round and saturating_f64_to_usize promise the same, and take about twice as long.
ghost use Rattle.std.specs.Prelude.{◌≡◌, ◌^◌, ◌≤◌, false, not, T, pos, Float};
ghost use Rattle.std.specs.Float.{fin};
ghost use Rattle.std.specs.Float.Ieee.{lt, neg, to_unsigned};
ghost use Rattle.float.specs.Ops.{of, ◌⊕◌, ◌⊖◌};
ghost use Rattle.float.specs.Whole.{cut, lifted, half_up, whole_by, floor_of, ceil_of, round_of};

// 2^52: an f64 from here on is a whole number.
pub const TWO_52: f64 = 4503599627370496.0;

// 2^64: the first number that is no usize.
const TWO_64: f64 = 18446744073709551616.0;

// For x above zero: below 2^52, x added to that is rounded to a whole number, which is x without its fraction or one
// more, and `mend` says which it is to be; from there on x is whole.
fn mended<M: Fn(f64, f64) -> f64>(x: f64, mend: M) -> f64
    requires { M.IsAlwaysCallable mend }
    ensures below { T (lt x TWO_52) → M.post mend x (x ⊕ TWO_52 ⊖ TWO_52) result }
    ensures whole { T (not (lt x TWO_52)) → result ≡ x }
{
    if x < TWO_52 {
        mend(x, (x + TWO_52) - TWO_52)
    } else {
        x
    }
}

// The whole number at or below x, for x above zero.
fn whole_down(x: f64) -> f64
    requires { T (lt (fin false 0 (pos 0)) x) }
    ensures { result ≡ whole_by cut x }
{
    mended(x, |x, t| if t > x { t - 1.0 } else { t })
}

// The whole number at or above x, for x above zero.
fn whole_up(x: f64) -> f64
    requires { T (lt (fin false 0 (pos 0)) x) }
    ensures { result ≡ whole_by lifted x }
{
    mended(x, |x, t| if t < x { t + 1.0 } else { t })
}

// The whole number nearest to x, a half up, for x above zero. (The sum has a half go to the even one.)
fn whole_near(x: f64) -> f64
    requires { T (lt (fin false 0 (pos 0)) x) }
    ensures { result ≡ whole_by half_up x }
{
    mended(x, |x, t| if x - t >= 0.5 { t + 1.0 } else { t })
}

// Rust's `x as usize`: toward zero, 0 for a NaN, and the nearer end of the range outside it. By way of an i64 where
// that will do, since a machine has one instruction for it, and none for a u64.
pub fn to_whole(x: f64) -> usize
    ensures { result ≡ to_unsigned 64 x }
{
    if x > 0.0 {
        if x < TWO_52 {
            let t = whole_down(x);
            let n = t as i64;
            n as usize
        } else if x < TWO_64 {
            std::num::truncating_f64_to_u64(x) as usize
        } else {
            usize::MAX
        }
    } else {
        0
    }
}

// x by `plus` above zero and by `minus`, of its size, below: the sign stays. A zero and a NaN stay as they are.
fn by_sign<P: Fn(f64) -> f64, M: Fn(f64) -> f64>(x: f64, plus: P, minus: M) -> f64
    requires plus { T (lt (fin false 0 (pos 0)) x) → P.pre plus x }
    requires minus { T (lt x (fin false 0 (pos 0))) → M.pre minus (neg x) }
    ensures above { T (lt (fin false 0 (pos 0)) x) → P.post plus x result }
    ensures below { T (lt x (fin false 0 (pos 0))) → (r : Float) × M.post minus (neg x) r × (result ≡ neg r) }
    ensures none { T (not (lt (fin false 0 (pos 0)) x)) → T (not (lt x (fin false 0 (pos 0)))) → result ≡ x }
{
    if x > 0.0 {
        plus(x)
    } else if x < 0.0 {
        -minus(-x)
    } else {
        x
    }
}

// Rust: f64::floor.
pub fn floor(x: f64) -> f64
    ensures { result ≡ floor_of x }
{
    by_sign(x, whole_down, whole_up)
}

// Rust: f64::ceil.
pub fn ceil(x: f64) -> f64
    ensures { result ≡ ceil_of x }
{
    by_sign(x, whole_up, whole_down)
}

// Rust: f64::round, a half away from zero.
pub fn round(x: f64) -> f64
    ensures { result ≡ round_of x }
{
    by_sign(x, whole_near, whole_near)
}

// The f64 that a whole number up to 2^53 is, by way of an i64 too.
pub fn exact(n: usize) -> f64
    requires { n ≤ 2 ^ 53 }
    ensures { result ≡ of n }
{
    let k = n as i64;
    k as f64
}

// Rust: `n as f64` of any whole number, to the nearest f64. `exact` is quicker where n is known to be small.
pub fn from_whole(n: usize) -> f64
    ensures { result ≡ of n }
{
    std::num::nearest_u64_to_f64(n as u64)
}
