// The run. The Rust leaves it to an engine whose files are not given; 01, part 7, says what it does.
ghost use Rattle.std.specs.Prelude.{◌≡◌, cond, ◌*◌, ◌/◌, ◌≤◌, length};
ghost use Rattle.float.specs.Ops.{◌⊘◌};
ghost use Rattle.row.specs.Samples.{Iq};
ghost use Rattle.row.specs.Window.{step_blocks};
ghost use Rattle.lists.specs.Records.{handed};
ghost use Rattle.elements.specs.Element.{ELEMENT, handed_elements};
ghost use Rattle.fits.specs.List.{FIT, fits_in, handed_fits};
ghost use Rattle.fits.specs.Estimate.{strong_elements, strong_fits};
ghost use Rattle.synth.specs.Removal.{subtracted};
ghost use Rattle.engine.specs.Run.{is_two, takes, run_figures, run_buffer};

use classes::ClassCounts;
use constants::{MAX_CARRIER_STEP_HZ, MIN_ELEMENTS};
use elements::Elements;
use fits::{Estimate, Fits, StrongSender, estimate_strong};
use measure::{Hypothesis, ResidualCheck, SecondCarrierEvidence, classify, measure_both};
use row::{Recording, SampleRate, Samples};
use synth::subtract;
use trig::Sines;

// Every figure of a run, and whether the strong sender was taken off.
#[derive(Clone, Copy)]
pub struct RunFigures {
    pub samples: usize,
    pub window: usize,
    pub estimate: Estimate,
    pub skipped: usize,
    pub blocks: usize,
    pub classes: ClassCounts,
    pub residual: ResidualCheck,
    pub evidence: SecondCarrierEvidence,
    pub hypothesis: Hypothesis,
    pub taken: bool,
}

fn is_two(h: Hypothesis) -> bool
    ensures { result ≡ is_two h }
{
    matches!(h, Hypothesis::TwoSignalCw { .. })
}

// Taken exactly when all four hold. A carrier step that is a NaN passes no comparison.
fn takes_off(h: Hypothesis, fitted: usize, step: f64, check: ResidualCheck) -> bool
    ensures { result ≡ takes h fitted step check }
{
    let size = float::abs(step);
    is_two(h) && fitted >= MIN_ELEMENTS && size <= MAX_CARRIER_STEP_HZ && check.clean()
}

// How a run ends: the fits are subtracted, or the buffer is kept.
fn subtract_where(taken: bool, buf: &mut [f32], fs: f64, carrier: f64, fits: &Fits, sine: &Sines)
    requires { length buf.old ≤ 2097152 }
    ensures { buf.new
        ≡ cond taken (subtracted fs (carrier ⊘ fs) buf.old (fits_in fits.now.numbers.now fits.now.count)) buf.old }
{
    if taken {
        subtract(buf, fs, carrier, fits, sine);
    }
}

// What a run finds out, of a recording that it only reads: estimate, residual, evidence, hypothesis, and whether all
// four conditions hold. The lists receive the elements and the fits of the second pass.
// What room the lists and the work slice have stands in clauses: it is said of the recording and a lent slice. A type
// over both would be lent as `&mut`, and each call would need a clause that the recording in it stays the same.
fn find_out(
    recording: &Recording,
    hint: f64,
    elements: &mut [f64],
    fits: &mut [f64],
    work: &mut [f64],
    sine: &Sines,
) -> RunFigures
    requires elements_room { ELEMENT * (step_blocks recording.now.samples.iq.now recording.now.rate.hz / 2) ≤ length elements.old }
    requires fits_room { FIT * (step_blocks recording.now.samples.iq.now recording.now.rate.hz / 2) ≤ length fits.old }
    requires work_room { 4 * step_blocks recording.now.samples.iq.now recording.now.rate.hz ≤ length work.old }
    ensures { (result ≡ run_figures recording.now.samples.iq.now recording.now.rate.hz hint)
        × (handed_elements elements.new result.estimate.found.listed
        ≡ handed ELEMENT (strong_elements recording.now.samples.iq.now recording.now.rate.hz hint) elements.old)
        × (handed_fits fits.new result.estimate.fitted ≡ handed FIT (strong_fits recording.now.samples.iq.now recording.now.rate.hz hint) fits.old) }
{
    let estimate = estimate_strong(recording, hint, elements, fits, work, sine);
    let listed = Elements::new(elements, estimate.found.listed);
    let fitted = Fits::new(fits, estimate.fitted);
    let sender = StrongSender {
        carrier_hz: estimate.carrier_hz,
        elements: listed,
        fits: fitted,
    };
    let m = measure_both(recording, &sender, work, sine);
    let hypothesis = classify(m.evidence);
    let step = estimate.carrier_step_hz;
    let taken = takes_off(hypothesis, estimate.fitted, step, m.residual);
    RunFigures {
        samples: recording.samples.count(),
        window: recording.rate.window(),
        estimate,
        skipped: estimate.found.listed - estimate.fitted,
        blocks: m.blocks,
        classes: m.classes,
        residual: m.residual,
        evidence: m.evidence,
        hypothesis,
        taken,
    }
}

// It finds out, then it subtracts where it takes the strong sender off. The buffer is written to then, so that it comes
// as `&mut` with its rate and not as a `Recording`, whose samples are lent for reading alone.
pub fn run(
    buf: &mut [f32],
    rate: SampleRate,
    hint: f64,
    elements: &mut [f64],
    fits: &mut [f64],
    work: &mut [f64],
    sine: &Sines,
) -> RunFigures
    requires iq { Iq buf.old }
    requires elements_room { ELEMENT * (step_blocks buf.old rate.hz / 2) ≤ length elements.old }
    requires fits_room { FIT * (step_blocks buf.old rate.hz / 2) ≤ length fits.old }
    requires work_room { 4 * step_blocks buf.old rate.hz ≤ length work.old }
    ensures { (result ≡ run_figures buf.old rate.hz hint)
        × (buf.new ≡ run_buffer buf.old rate.hz hint)
        × (handed_elements elements.new result.estimate.found.listed
        ≡ handed ELEMENT (strong_elements buf.old rate.hz hint) elements.old)
        × (handed_fits fits.new result.estimate.fitted ≡ handed FIT (strong_fits buf.old rate.hz hint) fits.old) }
{
    let recording = Recording {
        samples: Samples { iq: buf },
        rate,
    };
    let found = find_out(&recording, hint, elements, fits, work, sine);
    let estimate = found.estimate;
    let fitted = Fits {
        numbers: fits,
        count: estimate.fitted,
    };
    subtract_where(
        found.taken,
        buf,
        rate.hz,
        estimate.carrier_hz,
        &fitted,
        sine,
    );
    found
}
