// From the bytes of a recording to the bytes of its report.
// No memory is asked for: the report goes into a lent array, and a count says how many of its bytes are the report's.
ghost use Rattle.std.specs.Prelude.{◌≡◌, [], ◌∷◌, ◌++◌, ◌%◌, ◌≤◌, length, take, drop};
ghost use Rattle.io.specs.Counts.{IsPrefixLen};
ghost use Rattle.row.specs.Samples.{all_finite};
ghost use Rattle.questions.specs.Refusals.{REFUSED_COUNT, REFUSED_SAMPLE, number_of};
ghost use Rattle.questions.specs.Questions.{ask, first_no};
ghost use Rattle.format.specs.Growing.{HasRoom, Grown};
ghost use Rattle.format.specs.Bytes.{INPUT};
ghost use Rattle.report.specs.Report.{ROOM, refusal, answered, report_of};

use cancel::Refusal;
use elements::ELEMENT;
use fits::FIT;
use format::{Came, INPUT, Text, bytes_ok, samples};
use lines::run_lines;

// Enough for every report.
pub const ROOM: usize = 16768;

// The one line of a refusal.
fn refused(out: &mut Text<'_>, no: Refusal)
    requires { HasRoom out.old (refusal (number_of no)) }
    ensures { Grown out.old (refusal (number_of no)) out.new }
{
    out.line(b"(run", &[u64::from(no) as usize]);
}

// At 3,000 samples a second B is at most 2,048, the most samples there are: its half in places, four times it in work.
fn of_recording(iq: &mut [f32], out: &mut Text<'_>)
    requires iq_len { length iq.old % 2 ≡ 0 }
    requires iq_len_bound { length iq.old ≤ 4096 }
    requires in_bounds { HasRoom out.old (answered (first_no (ask REFUSED_SAMPLE (all_finite iq.old) ∷ [])) iq.old) }
    ensures { Grown out.old (answered (first_no (ask REFUSED_SAMPLE (all_finite iq.old) ∷ [])) iq.old) out.new }
{
    let mut elements = [0.0f64; ELEMENT * 1024];
    let mut fits = [0.0f64; FIT * 1024];
    let mut work = [0.0f64; 4 * 2048];
    match cancel::run(iq, 3000.0, 0.0, &mut elements, &mut fits, &mut work) {
        Err(no) => refused(out, no),
        Ok(f) => run_lines(out, f, &elements),
    }
}

fn put_report(bytes: &[u8], out: &mut Text<'_>)
    requires { HasRoom out.old (report_of bytes.now) }
    ensures { Grown out.old (report_of bytes.now) out.new }
{
    if !bytes_ok(bytes.len()) {
        return refused(out, Refusal::Count);
    }
    let mut iq = [0.0f32; 4096];
    let parts = samples(bytes, &mut iq);
    of_recording(&mut iq[..parts], out)
}

// The report goes to the start of `out`, and the rest of it is as it was; answers how many bytes the report has.
#[tactic(auto, using(crate::proofs::Room::report_fits))]
pub fn report(bytes: &[u8], out: &mut [u8; ROOM]) -> usize
    ensures prefix_len { IsPrefixLen result out.new }
    ensures value { (result ≡ length (report_of bytes.now))
        × (out.new ≡ report_of bytes.now ++ drop (length (report_of bytes.now)) out.old) }
{
    let mut text = Text::new(out);
    put_report(bytes, &mut text);
    text.filled()
}

// What the programs ask of the array into which a recording was read, and of what came: that is handed over whole, and
// only a reading makes it, so that no program chooses the count. A count beyond the array counts as a full one, and a
// full one holds more than a recording may have.
pub fn report_read(bytes: &[u8; INPUT], came: Came, out: &mut [u8; ROOM]) -> usize
    ensures prefix_len { IsPrefixLen result out.new }
    ensures value { (result ≡ length (report_of (take came.count bytes.now)))
        × (out.new ≡ report_of (take came.count bytes.now) ++ drop (length (report_of (take came.count bytes.now))) out.old) }
    ensures bytes_value { INPUT ≤ came.count → report_of (take came.count bytes.now) ≡ refusal REFUSED_COUNT }
{
    let n = came.count().min(INPUT);
    report(&bytes[..n], out)
}
