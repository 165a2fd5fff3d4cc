// The elements of a recording at a carrier.
ghost use Rattle.std.specs.Prelude.{◌≡◌, ◌*◌, ◌/◌, ◌≤◌, length};
ghost use Rattle.row.specs.Window.{step_blocks};
ghost use Rattle.lists.specs.Records.{handed};
ghost use Rattle.elements.specs.Element.{ELEMENT, handed_elements};
ghost use Rattle.elements.specs.Find.{found_of, elements_found};

use crate::amplitude::make_row;
use crate::keying::{Found, Walk};
use crate::threshold::half_of;
use constants::EDGE_PERCENTILE;
use rank::select::percentile;
use row::Recording;
use trig::Sines;

// Rust: find_elements, which answers the elements as a list of its own and counts nothing. Its way out for n < window
// needs no test here: the row is then empty and has no percentile. The two `let .. else` are `row_threshold` written
// out, since 01 names that form: percentile's none leaves find_elements by let .. else with an empty list.
// What room the list and the work slice have stands in clauses, here and in amplitude.rt: it is said of the recording
// and a lent slice. A type over both would be lent as `&mut`, and each call would need a clause that the recording in
// it stays the same.
pub fn find_elements(
    recording: &Recording,
    carrier: f64,
    elements: &mut [f64],
    work: &mut [f64],
    sine: &Sines,
) -> Found
    requires elements_in_bounds { ELEMENT * (step_blocks recording.now.samples.iq.now recording.now.rate.hz / 2) ≤ length elements.old }
    requires work_in_bounds { 4 * step_blocks recording.now.samples.iq.now recording.now.rate.hz ≤ length work.old }
    ensures { (result ≡ found_of recording.now.samples.iq.now recording.now.rate.hz carrier)
        × (handed_elements elements.new result.listed
        ≡ handed ELEMENT (elements_found recording.now.samples.iq.now recording.now.rate.hz carrier) elements.old) }
{
    let row = make_row(recording, carrier, work, sine);
    let Some(top) = percentile(row, EDGE_PERCENTILE) else {
        return Found::NO_KEY_DOWNS;
    };
    let Some(thr) = half_of(top) else {
        return Found::NO_KEY_DOWNS;
    };
    let walk = Walk {
        row,
        thr,
        step: recording.rate.step(),
        fs: recording.rate.hz,
    };
    walk.scan(elements)
}
