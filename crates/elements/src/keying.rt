// The walk along a row of amplitudes.
ghost use Rattle.std.specs.Prelude.{◌≡◌, ◌+◌, ◌-◌, ◌*◌, ◌/◌, ◌^◌, ◌≤◌, ◌<◌, ◌&&◌, length};
ghost use Rattle.std.specs.Float.Ieee.{lt, le};
ghost use Rattle.elements.specs.Element.{ELEMENT};
ghost use Rattle.elements.specs.Keying.{heights, key_down, pending, ended, crossed_at, element_of, is_long, counts, found_to, elements_of, elements_to};
ghost use Rattle.elements.specs.Inner.{stored, stored_from, Room, one_listed, one_short, found_plus};

use crate::element::{KeyedElement, put_element};
use constants::RISE_S;
use float::whole::exact;
use row::centre;

// How many key-downs a row has, how many of them are listed and short, and the airtime of the listed ones in samples.
#[derive(Clone, Copy)]
pub struct Found {
    pub key_downs: usize,
    pub listed: usize,
    pub short: usize,
    pub airtime: usize,
}

impl Found {
    pub const NO_KEY_DOWNS: Found = Found {
        key_downs: 0,
        listed: 0,
        short: 0,
        airtime: 0,
    };

    // One more key-down, listed, of so many samples.
    fn with_listed(self, samples: usize) -> Found
        requires room { Room self }
        requires samples_bound { samples ≤ 2 ^ 26 }
        ensures { result ≡ found_plus self (one_listed samples) }
    {
        Found {
            key_downs: self.key_downs + 1,
            listed: self.listed + 1,
            short: self.short,
            airtime: self.airtime + samples,
        }
    }

    // One more key-down, too short.
    fn with_short(self) -> Found
        requires { Room self }
        ensures { result ≡ found_plus self one_short }
    {
        Found {
            key_downs: self.key_downs + 1,
            listed: self.listed,
            short: self.short + 1,
            airtime: self.airtime,
        }
    }
}

// A row of amplitudes at a threshold: they stand `step` samples apart, at the sample rate fs.
#[derive(Clone, Copy)]
pub struct Walk<'a> {
    pub row: &'a [f64],
    pub thr: f64,
    pub step: usize,
    pub fs: f64,
    pub ghost few: { length row.now ≤ 2 ^ 20 },
    pub ghost near: { step ≤ 64 },
}

impl<'a> Walk<'a> {
    // Is the threshold crossed upward from one amplitude to another? Downward it is crossed where it is upward from the
    // later one to the earlier.
    fn crosses(&self, below: f64, above: f64) -> bool
        ensures { result ≡ (lt below self.now.thr && le self.now.thr above) }
    {
        below < self.thr && above >= self.thr
    }

    // The time of the crossing at i. Rust: `centre` and `cross` of find_elements.
    fn crossing(&self, i: usize) -> f64
        requires { (1 ≤ i) × (i < length self.now.row.now) }
        ensures { result ≡ crossed_at (heights self.now.row.now) self.now.thr self.now.step i }
    {
        let a0 = self.row[i - 1];
        let a1 = self.row[i];
        centre((i - 1) * self.step, 8 * self.step) + (self.thr - a0) / (a1 - a0) * exact(self.step)
    }

    // The element that the key-down from up to down is.
    fn element(&self, up: usize, down: usize) -> KeyedElement
        requires { (1 ≤ up) × (up < down) × (down < length self.now.row.now) }
        ensures { result ≡ element_of (heights self.now.row.now) self.now.thr self.now.step (key_down up down) }
    {
        KeyedElement {
            start: self.crossing(up),
            end: self.crossing(down),
            up: exact(up),
            down: exact(down),
        }
    }

    fn is_long(&self, e: KeyedElement) -> bool
        ensures { result ≡ is_long self.now.fs e }
    {
        e.end - e.start >= RISE_S * self.fs
    }

    // The downward crossing at i ends the key-down of the pending upward one, if there is one. It is counted, and
    // stored if it is long enough.
    fn close(&self, rising: Option<usize>, i: usize, found: Found, elements: &mut [f64]) -> Found
        requires le_i { (1 ≤ i) × (i < length self.now.row.now) }
        requires row_in_bounds { ELEMENT * (length self.now.row.now / 2) ≤ length elements.old }
        requires rising_value { rising ≡ pending (heights self.now.row.now) self.now.thr (i - 1) }
        requires found_value { found ≡ found_to (heights self.now.row.now) self.now.thr self.now.step self.now.fs (i - 1) }
        ensures { (result ≡ found_plus found (counts (heights self.now.row.now) self.now.thr self.now.step self.now.fs (ended rising i)))
            × (elements.new ≡ stored_from elements.old found.listed
            (elements_of (heights self.now.row.now) self.now.thr self.now.step self.now.fs (ended rising i))) }
    {
        let Some(up) = rising else {
            return found;
        };
        let e = self.element(up, i);
        if self.is_long(e) {
            put_element(elements, found.listed, e);
            found.with_listed((i - up) * self.step)
        } else {
            found.with_short()
        }
    }

    // The key-downs of the row: their counts, and those long enough as elements in the lent list.
    // Rust: the loop of find_elements, which counts nothing and lists start and end alone.
    pub fn scan(&self, elements: &mut [f64]) -> Found
        requires { ELEMENT * (length self.now.row.now / 2) ≤ length elements.old }
        ensures { (result ≡ found_to (heights self.now.row.now) self.now.thr self.now.step self.now.fs (length self.now.row.now - 1))
            × (elements.new ≡ stored elements.old
            (elements_to (heights self.now.row.now) self.now.thr self.now.step self.now.fs (length self.now.row.now - 1))) }
    {
        let mut rising = None;
        let mut found = Found::NO_KEY_DOWNS;
        for (j, pair) in self.row.windows(2).enumerate() {
            let i = j + 1;
            if self.crosses(pair[0], pair[1]) {
                rising = Some(i);
            } else if self.crosses(pair[1], pair[0]) {
                found = self.close(rising, i, found, elements);
                rising = None;
            }
        }
        found
    }
}
