// A recording as it is read: from an open file, from standard input, or from whatever else reads.
// No memory is asked for: the bytes go into a lent array, and a count says how many of them came.
ghost use Rattle.std.specs.Prelude.{◌≡◌, false, ◌-◌, ◌≤◌, ◌<◌, min, max, length};
ghost use Rattle.io.specs.Counts.{IsPrefixLen};
ghost use Rattle.format.specs.Bytes.{INPUT as Bytes·INPUT};
ghost use Rattle.format.specs.Input.{reading_of, goes_on};

use crate::reads::{Came, Read, Reading};
use std::io;

// One byte more than a recording may have, so that too many are noticed.
pub const INPUT: usize = 16385;

// Reads a piece at a time, until a read ends the input; answers that read, which asked for a piece too.
#[tactic(auto, using(crate::proofs::Answers::goes_on_lem))]
fn read_to_end<R: io::Read>(reader: &mut R, bytes: &mut [u8], piece: usize) -> Read
    requires { 0 < length bytes.old }
    ensures { (result.room ≡ length bytes.new) × (result.asked ≡ min (max 1 piece) (length bytes.new - result.there))
        × (goes_on (reading_of result) ≡ false) }
{
    let mut last = Read::next(reader, bytes, 0, piece);
    while let Reading::More(n) = last.meaning() {
        last = Read::next(reader, bytes, n, piece);
    }
    last
}

// Reads to the end of the input, or until `bytes` is full, at most `piece` bytes at a time; answers how many came, and
// what the last read asked for, so that a test sees that it was a piece. A read that fails counts as too many, so that
// no part of a recording is reported as if it were whole.
pub fn read_recording<R: io::Read>(reader: &mut R, bytes: &mut [u8; INPUT], piece: usize) -> Came
    ensures prefix_len { (IsPrefixLen result.count bytes.new) × (result.asked ≡ min (max 1 piece) (INPUT - result.there)) }
    ensures bytes_len { length bytes.new ≡ Bytes·INPUT }
{
    read_to_end(reader, bytes, piece).what_came()
}

// Reads until `bytes` is full, the input ends or a read fails; answers how many bytes came.
pub fn read_full<R: io::Read>(reader: &mut R, bytes: &mut [u8]) -> usize
    ensures { IsPrefixLen result bytes.new }
{
    let room = bytes.len();
    if room == 0 {
        return 0;
    }
    read_to_end(reader, bytes, room).came()
}
