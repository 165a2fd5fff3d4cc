// The amplitude row of a recording in the work slice, and in a lent list with its threshold.
ghost use Rattle.std.specs.Prelude.{◌≡◌, ◌*◌, ◌≤◌, length};
ghost use Rattle.lists.specs.Firsts.{firsts};
ghost use Rattle.row.specs.Window.{step_blocks};
ghost use Rattle.row.specs.Envelope.{row_of, row_length};
ghost use Rattle.lists.specs.Records.{handed, handed_numbers};
ghost use Rattle.elements.specs.Find.{amplitude_row_of};

use crate::threshold::row_threshold;
use row::{Recording, amplitudes, copy};
use trig::Sines;

// How many amplitudes the row has, and its threshold.
#[derive(Clone, Copy)]
pub struct AmplitudeRow {
    pub amplitudes: usize,
    pub threshold: Option<f64>,
}

// Rust: the first half of find_elements. The row lies in the work slice, behind the block means; where n < window it is
// empty. `all` is there because a part of a `&mut` slice is handed out only as a part of the whole lent as `&`.
pub fn make_row<'a>(
    recording: &Recording,
    carrier: f64,
    work: &'a mut [f64],
    sine: &Sines,
) -> &'a [f64]
    requires { 4 * step_blocks recording.now.samples.iq.now recording.now.rate.hz ≤ length work.old }
    ensures { result.now ≡ firsts (row_of recording.now.samples.iq.now recording.now.rate.hz carrier)
        (row_length recording.now.samples.iq.now recording.now.rate.hz) }
{
    let n = recording.samples.count();
    if n < recording.rate.window() {
        let all = &work[..];
        return &all[..0];
    }
    let step = recording.rate.step();
    let b = n / step;
    let from = 2 * b;
    let to = from + (b - 7);
    amplitudes(
        &recording.samples,
        carrier / recording.rate.hz,
        step,
        work,
        sine,
    );
    let all = &work[..];
    &all[from..to]
}

// In the Rust find_elements keeps the row to itself. Here the list gets a copy of it.
pub fn amplitude_row(
    recording: &Recording,
    carrier: f64,
    row: &mut [f64],
    work: &mut [f64],
    sine: &Sines,
) -> AmplitudeRow
    requires row_in_bounds { row_length recording.now.samples.iq.now recording.now.rate.hz ≤ length row.old }
    requires work_in_bounds { 4 * step_blocks recording.now.samples.iq.now recording.now.rate.hz ≤ length work.old }
    ensures { (result ≡ amplitude_row_of recording.now.samples.iq.now recording.now.rate.hz carrier)
        × (handed_numbers row.new result.amplitudes
        ≡ handed 1 (firsts (row_of recording.now.samples.iq.now recording.now.rate.hz carrier)
        (row_length recording.now.samples.iq.now recording.now.rate.hz)) row.old) }
{
    let made = make_row(recording, carrier, work, sine);
    copy(made, &mut row[..made.len()]);
    AmplitudeRow {
        amplitudes: made.len(),
        threshold: row_threshold(made),
    }
}
