// Replays the Rust's stored answers: reads them from standard input, asks the calls again and compares every number.
// crates/replay/README.md has the form of the file and how it was made.
#![tactic(auto)]

mod calls;
mod cases;
mod kept;
mod sizes;

use crate::cases::ask;
use crate::kept::Kept;
use std::io;
use stored::kept::{copied, floats, list, recording};
use stored::kind::{Broken, Kind};
use stored::records::{Record, Records};
use stored::tally::Tally;

// Replays a record: puts what it holds, counts that it is the end, or asks its call.
fn replay_record(record: Record, kept: &mut Kept, tally: &mut Tally) {
    let body = record.body;
    match record.kind {
        Kind::Recording => recording(body, &mut kept.iq),
        Kind::Floats => floats(body, &mut kept.iq),
        Kind::Left => copied(&kept.iq, &mut kept.left),
        Kind::LeftFloats => floats(body, &mut kept.left),
        Kind::Elements => list(body, &mut kept.elements),
        Kind::Fits => list(body, &mut kept.fits),
        Kind::End => tally.count_end(),
        Kind::Stored(call) => ask(call, false, body, kept, tally),
        Kind::Meant(call) => ask(call, true, body, kept, tally),
    }
}

// Replays one record after the other, up to one that is broken.
fn replay_records(bytes: &[u8], tally: &mut Tally) -> Result<(), Broken> {
    let mut kept = Kept::NOTHING;
    for record in Records::new(bytes) {
        replay_record(record?, &mut kept, tally);
    }
    Ok(())
}

// Replays a file, and tells what was counted.
fn replay<W: io::Write>(out: &mut W, bytes: &[u8]) -> io::Result<()> {
    let mut tally = Tally::new();
    if replay_records(bytes, &mut tally).is_err() {
        tally.count_broken();
    }
    write!(out, "{tally}")
}

// One byte more than the stored answers may have, so that too many are noticed: then the end is not read.
fn main(rt: HostRuntime) -> io::Result<()> {
    let mut bytes = [0u8; 1048577];
    let n = format::read_full(&mut rt.stdin(), &mut bytes);
    replay(&mut rt.stdout(), &bytes[..n])
}
