// One key-down element as a value, and elements in a lent slice of f64, four numbers a place.
ghost use Rattle.std.specs.Prelude.{◌≡◌, ◌+◌, ◌*◌, ◌≤◌, length};
ghost use Rattle.elements.specs.Element.{ELEMENT, element_from, element_at};
ghost use Rattle.elements.specs.Inner.{put_element_from, put_element};

use crate::places::Places;

// How many numbers an element has in a list: a place.
pub const ELEMENT: usize = 4;

// The first elements of a list.
pub type Elements<'a> = Places<'a, ELEMENT>;

// The sample times of the two crossings, and their positions in the row, which the Rust does not keep.
#[derive(Clone, Copy)]
pub struct KeyedElement {
    pub start: f64,
    pub end: f64,
    pub up: f64,
    pub down: f64,
}

// An element is stored in four numbers from number `at` on.
pub fn put_element_from(out: &mut [f64], at: usize, e: KeyedElement)
    requires { at + ELEMENT ≤ length out.old }
    ensures { out.new ≡ put_element_from out.old at e }
{
    out[at] = e.start;
    out[at + 1] = e.end;
    out[at + 2] = e.up;
    out[at + 3] = e.down;
}

pub fn element_from(row: &[f64], at: usize) -> KeyedElement
    requires { at + ELEMENT ≤ length row.now }
    ensures { result ≡ element_from row.now at }
{
    KeyedElement {
        start: row[at],
        end: row[at + 1],
        up: row[at + 2],
        down: row[at + 3],
    }
}

// The same at place p.
pub fn put_element(out: &mut [f64], p: usize, e: KeyedElement)
    requires { ELEMENT * p + ELEMENT ≤ length out.old }
    ensures { out.new ≡ put_element out.old p e }
{
    put_element_from(out, ELEMENT * p, e);
}

pub fn element_at(row: &[f64], p: usize) -> KeyedElement
    requires { ELEMENT * p + ELEMENT ≤ length row.now }
    ensures { result ≡ element_at row.now p }
{
    element_from(row, ELEMENT * p)
}
