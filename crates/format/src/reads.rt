// One read of an input, and what it means for the whole.
ghost use Rattle.std.specs.Prelude.{◌+◌, ◌≤◌, IfSome};
ghost use Rattle.std.proofs.Props.{props};

use std::io;

// One read of an input that goes into `room` bytes: how many bytes were there before it, how many it asked for, and how
// many it answered to have brought, none where it failed. It asks for something, within the room, and brings no more
// than it asked for. Its fields are open to this file alone, so that every `Read` is one that `Read::next` made, or the
// same in another room.
#[derive(Clone, Copy)]
pub struct Read {
    room: usize,
    there: usize,
    asked: usize,
    answer: Option<usize>,
    ghost something: { 1 ≤ asked },
    ghost within: { there + asked ≤ room },
    ghost moved: { IfSome answer (λ n. n ≤ asked) } by { Prim.hlevel props },
}

// What a read means for the whole input.
#[derive(Clone, Copy)]
pub enum Reading {
    Failed,
    Ended,
    Full,
    // So many bytes are there now, and more may come.
    More(usize),
}

impl Read {
    ghost use Rattle.std.specs.Prelude.{◌≡◌, ◌-◌, ◌<◌, min, max, length};
    ghost use Rattle.format.specs.Input.{reading_of, count_of, there_after};

    // Reads the next bytes behind those that are there: a piece, of one byte at least, as far as there is room.
    pub fn next<R: io::Read>(reader: &mut R, bytes: &mut [u8], there: usize, piece: usize) -> Read
        requires { there < length bytes.old }
        ensures there_value { (result.room ≡ length bytes.new) × (result.there ≡ there)
            × (result.asked ≡ min (max 1 piece) (length bytes.new - there)) }
        ensures bytes_len_unchanged { length bytes.new ≡ length bytes.old }
    {
        let room = bytes.len();
        let asked = piece.max(1).min(room - there);
        let answer = reader.read(&mut bytes[there..there + asked]).ok();
        Read {
            room,
            there,
            asked,
            answer,
        }
    }

    // The same read, of an input that goes into another number of bytes: so it can be asked what it means in any room
    // that it fits into, and not only in the one that it was made in.
    pub fn in_room(self, other: usize) -> Read
        requires { self.there + self.asked ≤ other }
        ensures { (result.room ≡ other) × (result.there ≡ self.there) × (result.asked ≡ self.asked)
            × (result.answer ≡ self.answer) }
    {
        Read {
            room: other,
            there: self.there,
            asked: self.asked,
            answer: self.answer,
        }
    }

    #[tactic(auto, unfolding(crate::specs::Input::reading_of))]
    pub fn meaning(self) -> Reading
        ensures { result ≡ reading_of self }
    {
        match self.answer {
            None => Reading::Failed,
            Some(0) => Reading::Ended,
            Some(n) if self.there + n < self.room => Reading::More(self.there + n),
            Some(_) => Reading::Full,
        }
    }

    // How many bytes are there after it.
    pub fn came(self) -> usize
        ensures value { result ≡ there_after self }
        ensures within { result ≤ self.room }
    {
        self.there + self.answer.unwrap_or(0)
    }

    // How many bytes an input has that it ended.
    #[tactic(auto, unfolding(crate::specs::Input::count_of))]
    fn count(self) -> usize
        ensures value { result ≡ count_of self }
        ensures within { result ≤ self.room }
    {
        match self.meaning() {
            Reading::Ended => self.there,
            _ => self.room,
        }
    }

    pub fn what_came(self) -> Came
        ensures value { (result.count ≡ count_of self) × (result.there ≡ self.there) × (result.asked ≡ self.asked) }
        ensures within { result.count ≤ self.room }
    {
        Came {
            count: self.count(),
            there: self.there,
            asked: self.asked,
        }
    }
}

// What came of an input: how many bytes it counts as having, and of the read that ended it how many bytes were there
// before it and how many it asked for. Its fields are open to this file alone too, so that no program hands on a count
// of its own.
#[derive(Clone, Copy)]
pub struct Came {
    count: usize,
    there: usize,
    asked: usize,
}

impl Came {
    ghost use Rattle.std.specs.Prelude.{◌≡◌};

    pub fn count(self) -> usize
        ensures { result ≡ self.count }
    {
        self.count
    }

    pub fn asked(self) -> usize
        ensures { result ≡ self.asked }
    {
        self.asked
    }
}
