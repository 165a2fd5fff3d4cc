// The percentile of a list, without sorting it and without moving anything: every value has an ordinal, a whole
// number of 64 bits, and the ordinals are in `total_cmp` order. The ordinal at a rank is found from its highest digit
// down, each digit by one pass that counts. Among values that are equal or nearly so, a pass for the least and the
// greatest ordinal spares the passes over the bits that they have in common.
ghost use Rattle.std.specs.Prelude.{◌≡◌, ◌==◌, ◌+◌, ◌*◌, ◌/◌, ◌%◌, ◌^◌, ◌<◌, ◌≤◌, List, Float, length};
ghost use Rattle.rank.specs.Select.{rank_of, percentile_of};
ghost use Rattle.rank.specs.Inner.{
  ordinal_of,
  of_ordinal,
  Ordinal,
  ordinal_at,
  cell,
  Histogram,
  sum_to,
  Passed,
  NextDigit,
  OrdinalIn,
  Between,
  SameOrdinals,
  Selected,
};

use std::marker::Model;

// A list so short that a u32 counts its values.
#[derive(Drop)]
struct Values<'a> {
    list: &'a [f64],
}

impl<'a> Model for Values<'a> {
    ghost Value = { List Float };

    ghost view = { λ v. v.list.now };

    ghost invariant = { λ v. length v.list.now ≤ 2097152 };
}

// The ordinals that begin with a prefix, before their last `shift` bits.
#[derive(Clone, Copy)]
struct Cell {
    shift: u32,
    prefix: u64,
}

// The ordinals that begin with a prefix, by their next `bits` bits, before their last `shift` bits.
#[derive(Clone, Copy)]
struct Digits {
    shift: u32,
    bits: u32,
    prefix: u64,
    ghost shift_bound: { shift < 64 },
    ghost bits_bound: { bits ≤ 11 },
}

// A digit of the ordinal at a rank, the rank among the values with this digit, and how many they are.
#[derive(Clone, Copy)]
struct Place {
    digit: u64,
    left: u64,
    count: u64,
}

// The least and the greatest of some ordinals.
#[derive(Clone, Copy)]
struct Bounds {
    least: u64,
    greatest: u64,
}

// The ordinal of +0, from which on the values have no sign.
const MIDDLE: u64 = 0x8000_0000_0000_0000;

// A value's ordinal: its bit pattern, counted up from the middle without a sign and down with one.
fn ordinal(x: f64) -> u64
    ensures { result ≡ ordinal_of x }
{
    if x.is_nan() {
        return u64::MAX;
    }
    let b = f64::to_bits(x);
    if b < MIDDLE { b + MIDDLE } else { u64::MAX - b }
}

// The value that has the ordinal k.
fn value(k: u64) -> f64
    requires { Ordinal k }
    ensures { result ≡ of_ordinal k }
{
    if k == u64::MAX {
        return f64::NAN;
    }
    if k < MIDDLE {
        f64::from_bits(u64::MAX - k)
    } else {
        f64::from_bits(k - MIDDLE)
    }
}

// k without its last `bits` bits, and 0 if it has no others.
fn shortened(k: u64, bits: u32) -> u64
    ensures { result ≡ k / 2 ^ bits }
{
    k.checked_shr(bits).unwrap_or(0)
}

impl Bounds {
    // The smallest cell that both are in: the bits that they begin with alike.
    fn cell(self) -> Cell
        ensures least { self.least / 2 ^ result.shift ≡ result.prefix }
        ensures greatest { self.greatest / 2 ^ result.shift ≡ result.prefix }
    {
        let shift = 64 - (self.least ^ self.greatest).leading_zeros();
        Cell {
            shift,
            prefix: shortened(self.least, shift),
        }
    }
}

impl Cell {
    // Whether the ordinal k is in the cell.
    fn holds(self, k: u64) -> bool
        ensures { result ≡ (k / 2 ^ self.shift == self.prefix) }
    {
        shortened(k, self.shift) == self.prefix
    }

    // The first ordinal in the cell.
    fn find(self, v: &Values) -> u64
        requires { 0 < cell (ordinal_at v.now) (2 ^ self.shift) self.prefix (length v.now) }
        ensures { OrdinalIn v.now (2 ^ self.shift) self.prefix result }
    {
        v.list
            .iter()
            .map(|x| ordinal(*x))
            .find(|k| self.holds(*k))
            .unwrap()
    }

    // The least and the greatest ordinal in the cell. An ordinal outside counts as one that moves neither: that is
    // quicker than to pass it over.
    fn bounds(self, v: &Values) -> Bounds
        ensures { Between v.now (2 ^ self.shift) self.prefix (length v.now) result.least result.greatest }
    {
        let mut least = u64::MAX;
        let mut greatest = 0;
        for x in v.list {
            let k = ordinal(*x);
            let inside = self.holds(k);
            least = u64::min(least, if inside { k } else { u64::MAX });
            greatest = u64::max(greatest, if inside { k } else { 0 });
        }
        Bounds { least, greatest }
    }

    // The smallest cell with the same ordinals. If they differ in the first bit, that is the cell itself.
    fn narrowed(self, v: &Values) -> Cell
        requires { 0 < cell (ordinal_at v.now) (2 ^ self.shift) self.prefix (length v.now) }
        ensures { SameOrdinals v.now self.shift self.prefix result.shift result.prefix }
    {
        let inner = self.bounds(v).cell();
        if inner.shift < self.shift {
            inner
        } else {
            self
        }
    }

    // Its ordinals by their next bits, so many if there are as many.
    fn digits(self, bits: u32) -> Digits
        requires shift_nonzero { 0 < self.shift }
        requires shift_bound { self.shift ≤ 64 }
        requires bits_nonzero { 0 < bits }
        requires bits_bound { bits ≤ 11 }
        ensures bits { 0 < result.bits }
        ensures shift { result.shift + result.bits ≡ self.shift }
        ensures prefix { result.prefix ≡ self.prefix }
    {
        let bits = u32::min(bits, self.shift);
        Digits {
            shift: self.shift - bits,
            bits,
            prefix: self.prefix,
        }
    }
}

impl Digits {
    // Whether the ordinal k begins with the prefix. Two shifts, since none may be by 64, as the two together may.
    fn holds(self, k: u64) -> bool
        ensures { result ≡ (k / 2 ^ self.shift / 2 ^ self.bits == self.prefix) }
    {
        (k >> self.shift) >> self.bits == self.prefix
    }

    // The digit of the ordinal k.
    fn digit(self, k: u64) -> usize
        ensures bound { result < 2048 }
        ensures value { result ≡ k / 2 ^ self.shift % 2 ^ self.bits }
    {
        ((k >> self.shift) & ((1 << self.bits) - 1)) as usize
    }

    // The ordinals with this digit.
    fn cell(self, digit: u64) -> Cell
        requires { self.prefix * 2 ^ self.bits + digit < 2 ^ 64 }
        ensures shift { result.shift ≡ self.shift }
        ensures prefix { result.prefix ≡ self.prefix * 2 ^ self.bits + digit }
    {
        Cell {
            shift: self.shift,
            prefix: (self.prefix << self.bits) + digit,
        }
    }

    // How often each digit comes among the values whose ordinal begins with the prefix.
    fn tally(self, v: &Values, hist: &mut [u32; 2048])
        requires { Histogram v.now (2 ^ self.shift) (2 ^ self.bits) self.prefix 0 hist.old }
        ensures { Histogram v.now (2 ^ self.shift) (2 ^ self.bits) self.prefix (length v.now) hist.new }
    {
        for x in v.list {
            let k = ordinal(*x);
            hist[self.digit(k)] += u32::from(self.holds(k));
        }
    }

    // The digit at a rank, which counts from the first of the values whose ordinal begins with the prefix.
    fn pass(self, v: &Values, rank: u64) -> Place
        requires { rank < cell (ordinal_at v.now) (2 ^ self.shift * 2 ^ self.bits) self.prefix (length v.now) }
        ensures { NextDigit v.now (2 ^ self.shift) (2 ^ self.bits) self.prefix rank result.digit result.left result.count }
    {
        let mut hist = [0u32; 2048];
        self.tally(v, &mut hist);
        walk(&hist, rank)
    }
}

// The digit at which the running count passes the rank.
fn walk(hist: &[u32; 2048], rank: u64) -> Place
    requires { rank < sum_to hist.now 2048 }
    ensures { Passed hist.now rank result.digit result.left result.count }
{
    let mut left = rank;
    for (digit, count) in hist.iter().enumerate() {
        let count = u64::from(*count);
        if left < count {
            return Place {
                digit: digit as u64,
                left,
                count,
            };
        }
        left -= count;
    }
    unreachable!()
}

// A guess that costs next to nothing: where three values begin alike, all may. Nothing rests on it but the time.
fn alike(v: &[f64]) -> bool
    requires { 0 < length v.now }
{
    let first = ordinal(v[0]) >> 42;
    let middle = ordinal(v[v.len() / 2]) >> 42;
    let last = ordinal(v[v.len() - 1]) >> 42;
    first == middle && middle == last
}

// The ordinal at a rank, in digits from the top: short ones for a short list, where the histogram costs more than the
// pass. Most lists do not need all of them: where only one value begins with the digits so far, it is the one. Where a
// quarter of the values begins with digits that reach behind the exponent, or where all are expected to be nearly
// equal, the bits that these have in common are skipped.
fn select(v: &[f64], rank: u64) -> u64
    requires v_len_bound { length v.now ≤ 2097152 }
    requires rank_in_bounds { rank < length v.now }
    ensures { Selected v.now rank result }
{
    let values = &Values { list: v };
    let bits = if v.len() < 512 { 8 } else { 11 };
    let many = (v.len() / 4) as u64;
    let mut cell = Cell {
        shift: 64,
        prefix: 0,
    };
    if alike(v) {
        cell = cell.narrowed(values);
    }
    let mut left = rank;
    // How many digits there are shows only on the way, since a cell may be narrowed by any number of bits: there is
    // nothing that a `for` could go over.
    while 0 < cell.shift {
        let digits = cell.digits(bits);
        let place = digits.pass(values, left);
        cell = digits.cell(place.digit);
        if place.count == 1 {
            return cell.find(values);
        }
        if 0 < cell.shift && cell.shift < 52 && many < place.count {
            cell = cell.narrowed(values);
        }
        left = place.left;
    }
    cell.prefix
}

// Where in the sorted list the p-th part of it ends: round((count - 1) * p), and at most count - 1.
fn rank(count: usize, p: f64) -> usize
    requires count_nonzero { 0 < count }
    requires count_bound { count ≤ 2097152 }
    ensures { result ≡ rank_of count p }
{
    let last = count - 1;
    let r = float::to_whole(float::round(float::whole::exact(last) * p));
    usize::min(r, last)
}

// Rust: percentile, which sorts its list in place.
pub fn percentile(v: &[f64], p: f64) -> Option<f64>
    requires { length v.now ≤ 2097152 }
    ensures { result ≡ percentile_of v.now p }
{
    if v.len() == 0 {
        return None;
    }
    let r = rank(v.len(), p);
    let k = select(v, r as u64);
    Some(value(k))
}
