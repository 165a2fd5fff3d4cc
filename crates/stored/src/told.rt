// What the program writes.
use crate::kind::{Broken, Call};
use crate::tally::{Group, Tally};
use std::fmt;

// A group of cases, call by call where any was asked, and in all: how many of how many are equal. Both groups are told
// by this: the two numbers of a line are the same in the first and differ in the second, so that one told for the other
// shows.
impl fmt::Display for Group {
    fn fmt<W: fmt::Write>(&self, f: &mut fmt::Formatter<W>) -> fmt::Result {
        for call in Call::ALL {
            let k = call.number();
            let asked = self.asked[k];
            if asked != 0 {
                let equal = self.equal[k];
                writeln!(f, "{call} {equal} of {asked}")?;
            }
        }
        let equal = sum(&self.equal);
        let asked = sum(&self.asked);
        writeln!(f, "all {equal} of {asked}")
    }
}

// Of all calls, up to the largest number.
fn sum(counts: &[u64]) -> u64 {
    counts
        .iter()
        .fold(0, |sum, count| sum.saturating_add(*count))
}

// The numbers up to this one, document 01's last, are always told.
const ALWAYS_TOLD: usize = 7;

// Refusals by each number, among the cases of the first group, up to the last that refused.
fn refusals<W: fmt::Write>(f: &mut fmt::Formatter<W>, refused: &[u64]) -> fmt::Result {
    let last = refused.iter().rposition(|count| *count != 0);
    let last = last.unwrap_or(0).max(ALWAYS_TOLD);
    write!(f, "refused by 1 to {last}:")?;
    for count in refused.iter().take(last + 1).skip(1) {
        write!(f, " {count}")?;
    }
    writeln!(f)
}

impl fmt::Display for Tally {
    fn fmt<W: fmt::Write>(&self, f: &mut fmt::Formatter<W>) -> fmt::Result {
        writeln!(f, "equal to the Rust's stored answers:")?;
        write!(f, "{}", self.stored)?;
        refusals(f, &self.refused)?;
        let [one, two, noncw, unresolved] = self.hypotheses;
        writeln!(
            f,
            "accepted runs: one {one}, two {two}, noncw {noncw}, unresolved {unresolved}"
        )?;
        let taken = self.taken;
        let changed = self.changed;
        writeln!(f, "taken {taken}, samples that they changed {changed}")?;
        writeln!(f, "equal where one bit of the stored answer was changed:")?;
        write!(f, "{}", self.meant)?;
        if self.broken != 0 || self.ends != 1 {
            writeln!(f, "{Broken}")?;
        }
        Ok(())
    }
}
