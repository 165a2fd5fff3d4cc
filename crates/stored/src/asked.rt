// What a stored case asks of a call, and what it then has to find.
ghost use Rattle.std.specs.Prelude.{◌≡◌, ◌<◌};
ghost use Rattle.std.specs.Option.{unwrap_or};

use crate::units::{count, double, long};

// A list of a given estimate, which is one that is kept: how many of its numbers are handed over, and how many records
// they are said to be. Some cases say more records than there is room for, to be refused.
#[derive(Clone, Copy)]
pub struct GivenList {
    pub length: usize,
    pub count: usize,
}

#[derive(Clone, Copy)]
pub struct Asked {
    pub fs: f64,
    // The hint, or the carrier of a find or fit.
    pub hint_hz: f64,
    // How many numbers are lent: of the recording, of both lists to be filled, of the work slice.
    pub floats: usize,
    pub elements: usize,
    pub fits: usize,
    pub work: usize,
    // A given estimate.
    pub carrier_hz: f64,
    pub carrier_step_hz: f64,
    pub given_elements: GivenList,
    pub given_fits: GivenList,
    // The Rust's answer: the number of its refusal, none where it accepts; whether the buffer is changed; how many
    // numbers each list has.
    pub refused: Option<u64>,
    pub changed: bool,
    pub listed: usize,
    pub fitted: usize,
}

// The refusal of a stored number, in which 0 stands for none.
fn refusal(number: u64) -> Option<u64>
    ensures { unwrap_or result 0 ≡ number }
{
    match number {
        0 => None,
        _ => Some(number),
    }
}

// From unit i on, of the 22 before a case's figures.
fn given_list(body: &[u8], i: usize) -> GivenList
    requires { i < 22 }
{
    GivenList {
        length: count(body, i),
        count: long(body, i + 1) as usize,
    }
}

pub fn of_case(body: &[u8]) -> Asked {
    Asked {
        fs: double(body, 0),
        hint_hz: double(body, 2),
        floats: count(body, 4),
        elements: count(body, 5),
        fits: count(body, 6),
        work: count(body, 7),
        carrier_hz: double(body, 8),
        carrier_step_hz: double(body, 10),
        given_elements: given_list(body, 12),
        given_fits: given_list(body, 15),
        refused: refusal(count(body, 18) as u64),
        changed: count(body, 19) != 0,
        listed: count(body, 20),
        fitted: count(body, 21),
    }
}

// The figures of the Rust's answer, which follow from byte `from` on.
pub fn figures_from(body: &[u8], from: usize) -> &[u8] {
    body.get(from..).unwrap_or(body)
}
