// Each call on a stored case: whether all that it answers and leaves is what is stored, and the number that refused
// it. A call is lent as many numbers as its case names. Lists and work slice hold one number before the call, so that
// it shows where a call wrote; the buffer holds the recording. Only the rows that a call is lent are made, and only
// what is lent of them is filled. `inline(never)` keeps their room, and that of a `Case`, out of `ask`, which would go
// through all of it for each record, also for a classify, which is lent none.
use crate::cases::Case;
use crate::kept::Kept;
use crate::sizes::{ELEMENTS, FITS, FLOATS, WORK};
use cancel::{Refusal, RunFigures, SecondCarrierEvidence};
use elements::ELEMENT;
use figures::{
    case_of, given_offset, of_estimate, of_evidence, of_find, of_fit, of_hypothesis, of_residual,
    of_run,
};
use fits::FIT;
use stored::answer::{
    Answered, Found, Ran, figured_same, filled_same, kept_same, left_same, refused_same,
};
use stored::asked::{Asked, figures_from};
use stored::equal::{LENT, changed, same_figures};
use stored::kept::copied;
use stored::units::{double, long};

// Where a case's figures begin, in bytes.
const FIGURES: usize = 88;

const CLASSIFY_ANSWER: usize = 40;

// The first n of a row, or all where it has fewer.
fn first_mut<T>(row: &mut [T], n: usize) -> &mut [T] {
    let end = n.min(row.len());
    &mut row[..end]
}

// The same of a list or a work slice, as it is before the call.
fn lent(row: &mut [f64], n: usize) -> &mut [f64] {
    let lent = first_mut(row, n);
    lent.fill(LENT);
    lent
}

fn done(equal: bool) -> Answered {
    Answered {
        equal,
        refused: None,
    }
}

fn refused(a: Asked, no: Refusal, elements: &[f64], fits: &[f64], work: &[f64]) -> Answered {
    let no = u64::from(no);
    Answered {
        equal: refused_same(a.refused, no, elements, fits, work),
        refused: Some(no),
    }
}

// Are figures, a list of elements, one of fits, and the buffer what is stored?
fn figured(case: Case, answer: &[f64]) -> bool {
    figured_same(case.asked.refused, answer, figures_from(case.body, FIGURES))
}

fn listed(case: Case, elements: &[f64]) -> bool {
    filled_same(elements, ELEMENT, case.stored_elements, case.asked.listed)
}

fn fitted(case: Case, fits: &[f64]) -> bool {
    filled_same(fits, FIT, case.stored_fits, case.asked.fitted)
}

fn left(case: Case, buf: &[f32]) -> bool {
    let a = case.asked;
    left_same(a.refused, a.changed, buf, case.iq, case.left)
}

#[inline(never)]
pub fn find(body: &[u8], kept: &Kept) -> Answered {
    let case = Case::new(body, kept);
    let a = case.asked;
    let mut elements = [0.0; ELEMENTS];
    let mut work = [0.0; WORK];
    let elements = lent(&mut elements, a.elements);
    let work = lent(&mut work, a.work);
    match cancel::find_elements(case.iq, a.fs, a.hint_hz, elements, work) {
        Err(no) => refused(a, no, elements, elements, work),
        Ok(f) => done(figured(case, &of_find(f)) && listed(case, elements)),
    }
}

#[inline(never)]
pub fn fit(body: &[u8], kept: &Kept) -> Answered {
    let case = Case::new(body, kept);
    let a = case.asked;
    let mut fits = [0.0; FITS];
    let mut work = [0.0; WORK];
    let fits = lent(&mut fits, a.fits);
    let work = lent(&mut work, a.work);
    match cancel::fit_elements(
        case.iq,
        a.fs,
        a.hint_hz,
        case.given_elements(),
        a.given_elements.count,
        fits,
        work,
    ) {
        Err(no) => refused(a, no, fits, fits, work),
        Ok(n) => done(figured(case, &of_fit(n)) && fitted(case, fits)),
    }
}

#[inline(never)]
pub fn estimate(body: &[u8], kept: &Kept) -> Answered {
    let case = Case::new(body, kept);
    let a = case.asked;
    let mut elements = [0.0; ELEMENTS];
    let mut fits = [0.0; FITS];
    let mut work = [0.0; WORK];
    let elements = lent(&mut elements, a.elements);
    let fits = lent(&mut fits, a.fits);
    let work = lent(&mut work, a.work);
    match cancel::estimate_strong(case.iq, a.fs, a.hint_hz, elements, fits, work) {
        Err(no) => refused(a, no, elements, fits, work),
        Ok(e) => done(
            figured(case, &of_estimate(e)) && listed(case, elements) && fitted(case, fits),
        ),
    }
}

#[inline(never)]
pub fn residual(body: &[u8], kept: &Kept) -> Answered {
    let case = Case::new(body, kept);
    let a = case.asked;
    let mut work = [0.0; WORK];
    let work = lent(&mut work, a.work);
    match cancel::residual_check(case.iq, a.fs, &case.given(), work) {
        Err(no) => refused(a, no, work, work, work),
        Ok(r) => done(figured(case, &of_residual(r))),
    }
}

// As residual, of another call with other figures: one function for both would take two closures.
#[inline(never)]
pub fn evidence(body: &[u8], kept: &Kept) -> Answered {
    let case = Case::new(body, kept);
    let a = case.asked;
    let mut work = [0.0; WORK];
    let work = lent(&mut work, a.work);
    match cancel::second_carrier_evidence(case.iq, a.fs, &case.given(), work) {
        Err(no) => refused(a, no, work, work, work),
        Ok(e) => done(figured(case, &of_evidence(e))),
    }
}

// It refuses nothing, and its body is one of its own.
pub fn classify(body: &[u8]) -> Answered {
    let e = SecondCarrierEvidence {
        gap_blocks: long(body, 0) as usize,
        hot_fraction: double(body, 2),
        offset_hz: given_offset(long(body, 4), double(body, 6)),
        coherence: double(body, 8),
    };
    let answer = of_hypothesis(cancel::classify(e));
    done(same_figures(&answer, figures_from(body, CLASSIFY_ANSWER)))
}

#[inline(never)]
pub fn subtract(body: &[u8], kept: &Kept) -> Answered {
    let case = Case::new(body, kept);
    let a = case.asked;
    let mut buf = [0.0; FLOATS];
    copied(case.iq, &mut buf);
    let buf = first_mut(&mut buf, a.floats);
    match cancel::subtract(buf, a.fs, &case.given()) {
        Err(no) => {
            let no = u64::from(no);
            Answered {
                equal: kept_same(a.refused, no, buf, case.iq),
                refused: Some(no),
            }
        }
        Ok(()) => done(left(case, buf)),
    }
}

// What an accepted run found, the hypothesis by the number that the file and the figures have; `buf` is the buffer that
// it left.
fn found(case: Case, f: RunFigures, buf: &[f32]) -> Found {
    let h = case_of(f.hypothesis);
    Found {
        hypothesis: float::to_whole(h.number),
        taken: f.taken.then(|| changed(buf, case.iq)),
    }
}

#[inline(never)]
pub fn run(body: &[u8], kept: &Kept) -> Ran {
    let case = Case::new(body, kept);
    let a = case.asked;
    let mut buf = [0.0; FLOATS];
    copied(case.iq, &mut buf);
    let mut elements = [0.0; ELEMENTS];
    let mut fits = [0.0; FITS];
    let mut work = [0.0; WORK];
    let buf = first_mut(&mut buf, a.floats);
    let elements = lent(&mut elements, a.elements);
    let fits = lent(&mut fits, a.fits);
    let work = lent(&mut work, a.work);
    match cancel::run(buf, a.fs, a.hint_hz, elements, fits, work) {
        Err(no) => {
            let no = u64::from(no);
            Ran {
                equal: refused_same(a.refused, no, elements, fits, work)
                    && kept_same(a.refused, no, buf, case.iq),
                answer: Err(no),
            }
        }
        Ok(f) => Ran {
            equal: figured(case, &of_run(f))
                && listed(case, elements)
                && fitted(case, fits)
                && left(case, buf),
            answer: Ok(found(case, f, buf)),
        },
    }
}
