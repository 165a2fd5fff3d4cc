// What is counted.
ghost use Rattle.std.specs.Prelude.{◌≡◌, ◌<◌, replicate, is_some, MatchResult, if◌then◌else◌};
ghost use Rattle.std.specs.Option.{unwrap_or};
ghost use Rattle.stored.specs.Tally.{PLACES, ENDS, BROKEN, place_of, plus, counted_of, ran_of, counts};
ghost use Rattle.stored.specs.Inner.{group_after, broken_in, in_group, row_after, broken_after};
ghost use Rattle.stored.specs.Kinds.{call_number};

use crate::answer::{Answered, Ran};
use crate::kind::Call;

// As many calls, numbers of a refusal (0 stands for what is accepted) and hypotheses as there is room for.
pub const CALLS: usize = 24;

pub const NUMBERS: usize = 20;

pub const HYPOTHESES: usize = 4;

// Where rows and counts begin, one behind the other as in `counts`: ASKED and EQUAL in a group, the others among all
// counts, of which there are PLACES.
pub const ASKED: usize = 0;

pub const EQUAL: usize = ASKED + CALLS;

pub const STORED: usize = 0;

pub const MEANT: usize = STORED + EQUAL + CALLS;

pub const REFUSED: usize = MEANT + EQUAL + CALLS;

pub const HYPOTHESIS: usize = REFUSED + NUMBERS;

pub const TAKEN: usize = HYPOTHESIS + HYPOTHESES;

pub const CHANGED: usize = TAKEN + 1;

pub const ENDS: usize = CHANGED + 1;

pub const BROKEN: usize = ENDS + 1;

pub const PLACES: usize = BROKEN + 1;

// A group of cases, call by call: how many were asked, and how many of them are equal. Two rows, and not one of pairs:
// so `counts` has them one behind the other.
#[derive(Clone, Copy)]
pub struct Group {
    pub asked: [u64; CALLS],
    pub equal: [u64; CALLS],
}

impl Group {
    const NONE: Group = Group {
        asked: [0; CALLS],
        equal: [0; CALLS],
    };

    // Counts a case of a call, by the call's number: that it was asked, and whether it is equal. Where the group has no
    // place for the call, both are counted as broken.
    fn count(&mut self, broken: &mut u64, call: usize, equal: bool)
        ensures group_is { self.new ≡ group_after self.old call equal }
        ensures broken_is { broken.new ≡ broken_in self.old broken.old call equal }
    {
        add(&mut self.asked, broken, call, 1);
        add(&mut self.equal, broken, call, u64::from(equal));
    }
}

#[derive(Clone, Copy)]
pub struct Tally {
    // Cases with the Rust's answer, and those where one bit of it was changed, which are meant to differ.
    pub stored: Group,
    pub meant: Group,
    // Refusals of the first, by their number.
    pub refused: [u64; NUMBERS],
    // Accepted runs, by their hypothesis.
    pub hypotheses: [u64; HYPOTHESES],
    // Runs that said taken, and the samples that they changed.
    pub taken: u64,
    pub changed: u64,
    // Ends of the stored answers.
    pub ends: u64,
    // Records that are not whole or of no known kind, and what has no place of its own.
    pub broken: u64,
}

// Counts at place k of a row. What has no place there is counted as broken, so that nothing is lost.
fn add(row: &mut [u64], broken: &mut u64, k: usize, more: u64)
    ensures row_is { row.new ≡ row_after row.old k more }
    ensures broken_is { broken.new ≡ broken_after row.old broken.old k more }
{
    if k < row.len() {
        row[k] = row[k].saturating_add(more);
    } else {
        *broken = broken.saturating_add(more);
    }
}

// The place among all counts that is k after the first of so many; what has no place is counted as broken.
#[tactic(auto, unfolding(crate::specs::Tally::place_of))]
fn place(first: usize, places: usize, k: usize) -> usize
    ensures value { result ≡ place_of first places k }
    ensures within { result < PLACES }
{
    match first.checked_add(k) {
        Some(i) if k < places && i < PLACES => i,
        _ => BROKEN,
    }
}

impl Tally {
    pub fn new() -> Tally
        ensures { counts result ≡ replicate PLACES 0 }
    {
        Tally {
            stored: Group::NONE,
            meant: Group::NONE,
            refused: [0; NUMBERS],
            hypotheses: [0; HYPOTHESES],
            taken: 0,
            changed: 0,
            ends: 0,
            broken: 0,
        }
    }

    // Counts a case of a call in its group.
    fn count_in_group(&mut self, call: usize, meant: bool, equal: bool)
        ensures { self.new ≡ in_group self.old meant call equal }
    {
        if meant {
            self.meant.count(&mut self.broken, call, equal);
        } else {
            self.stored.count(&mut self.broken, call, equal);
        }
    }

    // Counts a case of a call, and its number unless it is meant to differ.
    pub fn count(&mut self, call: Call, meant: bool, a: Answered)
        ensures { counts self.new ≡ counted_of (call_number call) meant a.equal (unwrap_or a.refused 0) (counts self.old) }
    {
        self.count_numbered(call.number(), meant, a);
    }

    // The same of a call by its number, whether any call has it or not; one that has no place is counted as broken.
    // What is promised of any number stands here, and by number in what it calls; of a `Call` alone it would be less.
    pub fn count_numbered(&mut self, call: usize, meant: bool, a: Answered)
        ensures { counts self.new ≡ counted_of call meant a.equal (unwrap_or a.refused 0) (counts self.old) }
    {
        self.count_in_group(call, meant, a.equal);
        let number = a.refused.unwrap_or(0) as usize;
        let more = u64::from(!meant);
        add(&mut self.refused, &mut self.broken, number, more);
    }

    // What a run adds to that, where it is accepted.
    pub fn count_run(&mut self, r: Ran)
        ensures { MatchResult r.answer (λ found. counts self.new ≡ ran_of 0 found.hypothesis (is_some found.taken) (unwrap_or found.taken 0) (counts self.old)) (λ _. self.new ≡ self.old) }
    {
        let Ok(found) = r.answer else {
            return;
        };
        let changed = found.taken.unwrap_or(0);
        self.count_run_numbered(0, found.hypothesis, found.taken.is_some(), changed);
    }

    // The same of a run by the number that refused it, 0 where it is accepted, by whether it said taken and by how many
    // samples it changed, whatever goes with what: a refused run may say taken, and one that did not may have changed
    // samples, which are not counted. A `Ran` has no such values, so of it alone less would be promised.
    pub fn count_run_numbered(&mut self, number: u64, hypothesis: usize, taken: bool, changed: u64)
        ensures { counts self.new ≡ ran_of number hypothesis taken changed (counts self.old) }
    {
        let accepted = u64::from(number == 0);
        add(&mut self.hypotheses, &mut self.broken, hypothesis, accepted);
        let samples = if taken { changed } else { 0 };
        self.taken = self.taken.saturating_add(u64::from(taken));
        self.changed = self.changed.saturating_add(samples);
    }

    // Counts an end of the stored answers.
    pub fn count_end(&mut self)
        ensures { counts self.new ≡ plus ENDS 1 0 1 (counts self.old) }
    {
        self.ends = self.ends.saturating_add(1);
    }

    // Counts a record that is not whole or of no known kind.
    pub fn count_broken(&mut self)
        ensures { counts self.new ≡ plus BROKEN 1 0 1 (counts self.old) }
    {
        self.broken = self.broken.saturating_add(1);
    }

    // Counts at any place among all counts: the one that is k after the first of so many. The methods above count at
    // one such place or a few; what is promised of any first, number of places and k stands here.
    pub fn count_at(&mut self, first: usize, places: usize, k: usize, more: u64)
        ensures { counts self.new ≡ plus first places k more (counts self.old) }
    {
        let i = place(first, places, k);
        if i < EQUAL {
            add(&mut self.stored.asked, &mut self.broken, i, more);
        } else if i < MEANT {
            add(&mut self.stored.equal, &mut self.broken, i - EQUAL, more);
        } else if i < MEANT + EQUAL {
            add(&mut self.meant.asked, &mut self.broken, i - MEANT, more);
        } else if i < REFUSED {
            let call = i - (MEANT + EQUAL);
            add(&mut self.meant.equal, &mut self.broken, call, more);
        } else if i < HYPOTHESIS {
            add(&mut self.refused, &mut self.broken, i - REFUSED, more);
        } else if i < TAKEN {
            add(&mut self.hypotheses, &mut self.broken, i - HYPOTHESIS, more);
        } else if i == TAKEN {
            self.taken = self.taken.saturating_add(more);
        } else if i == CHANGED {
            self.changed = self.changed.saturating_add(more);
        } else if i == ENDS {
            self.ends = self.ends.saturating_add(more);
        } else {
            self.broken = self.broken.saturating_add(more);
        }
    }
}
