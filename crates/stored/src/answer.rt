// Whether what a call answered and left is what is stored of it.
ghost use Rattle.std.specs.Prelude.{◌≡◌, ◌<◌};
ghost use Rattle.std.specs.Option.{unwrap_or};
ghost use Rattle.stored.specs.Answers.{refused_same, figured_same, filled_same, kept_same, left_same};

use crate::equal::{as_lent, same_figures, same_floats, same_list};

// What came of a case: whether it is equal, and the number that refused it, none where it is accepted. Refusals and
// hypotheses stand here by number, in which the file has them: the comparisons and the tally promise what they do of
// any number, and a parameter that is a `Refusal` or a `Hypothesis` would promise it of those alone.
#[derive(Clone, Copy)]
pub struct Answered {
    pub equal: bool,
    pub refused: Option<u64>,
}

// What an accepted run found: its hypothesis, by the number that it has among the figures, and of one that said taken
// how many samples it changed.
#[derive(Clone, Copy)]
pub struct Found {
    pub hypothesis: usize,
    pub taken: Option<u64>,
}

// What came of a run: whether it is equal, and what it found or the number that refused it.
#[derive(Clone, Copy)]
pub struct Ran {
    pub equal: bool,
    pub answer: Result<Found, u64>,
}

impl From<Ran> for Answered {
    ghost use Rattle.stored.specs.Answers.{AnsweredBy};

    ghost from_gives = { AnsweredBy };

    fn from(ran: Ran) -> Answered {
        Answered {
            equal: ran.equal,
            refused: ran.answer.err(),
        }
    }
}

// A refusal by the stored number leaves lists and work slice as they were lent.
#[tactic(auto, unfolding(crate::specs::Answers::refused_same))]
pub fn refused_same(
    stored: Option<u64>,
    no: u64,
    elements: &[f64],
    fits: &[f64],
    work: &[f64],
) -> bool
    ensures { result ≡ refused_same (unwrap_or stored 0) no elements.now fits.now work.now }
{
    no == stored.unwrap_or(0) && as_lent(elements, 0) && as_lent(fits, 0) && as_lent(work, 0)
}

// A refusal by the stored number leaves the buffer as it was.
#[tactic(auto, unfolding(crate::specs::Answers::kept_same))]
pub fn kept_same(stored: Option<u64>, no: u64, buf: &[f32], iq: &[f32]) -> bool
    ensures { result ≡ kept_same (unwrap_or stored 0) no buf.now iq.now }
{
    no == stored.unwrap_or(0) && same_floats(buf, iq)
}

// An accepted call's figures.
#[tactic(auto, unfolding(crate::specs::Answers::figured_same))]
pub fn figured_same(stored: Option<u64>, figures: &[f64], body: &[u8]) -> bool
    ensures { result ≡ figured_same (unwrap_or stored 0) figures.now body.now }
{
    stored.unwrap_or(0) == 0 && same_figures(figures, body)
}

// A list holds the stored numbers, and what follows its last whole record is as it was.
#[tactic(auto, unfolding(crate::specs::Answers::filled_same))]
pub fn filled_same(list: &[f64], width: usize, stored: &[f64], n: usize) -> bool
    requires { 0 < width }
    ensures { result ≡ filled_same list.now width stored.now n }
{
    same_list(list, stored, n) && as_lent(list, list.len() - list.len() % width)
}

// The buffer after an accepted call: as it was, or as stored.
#[tactic(auto, unfolding(crate::specs::Answers::left_same))]
pub fn left_same(stored: Option<u64>, changed: bool, buf: &[f32], iq: &[f32], left: &[f32]) -> bool
    ensures { result ≡ left_same (unwrap_or stored 0) changed buf.now iq.now left.now }
{
    let wanted = if changed { left } else { iq };
    stored.unwrap_or(0) == 0 && same_floats(buf, wanted)
}
