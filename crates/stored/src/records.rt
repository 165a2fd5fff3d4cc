// The records of the file, one after the other.
ghost use Rattle.std.specs.Prelude.{◌≡◌, length, MatchResult};
ghost use Rattle.stored.specs.Records.{IsFirst, NoFirst};

use crate::kind::{Broken, Kind};
use crate::units::count;

// What a record is, and its body.
#[derive(Clone, Copy)]
pub struct Record<'a> {
    pub kind: Kind,
    pub body: &'a [u8],
}

// The first record of some bytes, and the bytes behind it.
fn first(bytes: &[u8]) -> Result<(Record<'_>, &[u8]), Broken>
    ensures { MatchResult result (λ r. IsFirst bytes.now r.0.kind r.0.body.now r.1.now) (λ _. NoFirst bytes.now) }
{
    let size = count(bytes, 1);
    if size < 2 || bytes.len() / 4 < size {
        return Err(Broken);
    }
    let kind = Kind::try_from(count(bytes, 0))?;
    let (record, behind) = bytes.split_at(4 * size);
    let body = &record[8..];
    Ok((Record { kind, body }, behind))
}

// The records that are left. One that is not whole or of no known kind is the last.
#[derive(Drop)]
pub struct Records<'a> {
    rest: &'a [u8],
}

impl<'a> Records<'a> {
    pub fn new(bytes: &'a [u8]) -> Records<'a>
        ensures { result.rest.now ≡ bytes.now }
    {
        Records { rest: bytes }
    }
}

impl<'a> Iterator for Records<'a> {
    type Item = Result<Record<'a>, Broken>;

    ghost use Rattle.std.specs.Prelude.{length};
    ghost use Rattle.std.specs.Iterator.{at_most};
    ghost use Rattle.stored.specs.Records.{Nexts};

    ghost next_gives = { λ s r t. Nexts s.rest.now r t.rest.now };

    ghost remaining = { λ s. at_most (length s.rest.now) };

    fn next(&mut self) -> Option<Result<Record<'a>, Broken>> {
        if self.rest.is_empty() {
            return None;
        }
        match first(self.rest) {
            Ok((record, behind)) => {
                self.rest = behind;
                Some(Ok(record))
            }
            Err(broken) => {
                self.rest = &[];
                Some(Err(broken))
            }
        }
    }
}
