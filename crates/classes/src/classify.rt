// The classes of a recording's blocks, by the times of an estimate. Rust: classify_blocks, lines 418 to 468 of
// cancel.rs, whose row of classes is a lent slice here that holds the number of each.
ghost use Rattle.std.specs.Prelude.{ℕ, ◌≡◌, ◌+◌, ◌*◌, ◌≤◌, Bool, length, Float};
ghost use Rattle.row.specs.Window.{centre_of};
ghost use Rattle.elements.specs.Element.{elements_in};
ghost use Rattle.fits.specs.List.{fits_in};
ghost use Rattle.classes.specs.declared.class.BlockClass.TheVariants.{Edge, Interior, Other};
ghost use Rattle.classes.specs.Class.{code_of, codes_of};
ghost use Rattle.classes.specs.Classify.{times_of, blocks_of, in_range, inside, at_edge, on_rim, in_turn, class_of, count_in, counts_in};
ghost use Rattle.classes.specs.Inner.{labelled, amid, element_labelled, fit_labelled};

use crate::class::BlockClass;
use crate::windows::Windows;
use constants::{EDGE_ZONE_S, RIM_S, RISE_S};
use elements::{Elements, KeyedElement, element_at};
use fits::{Fits, fit_at};
use row::SampleRate;

// How many blocks have each class.
#[derive(Clone, Copy)]
pub struct ClassCounts {
    pub edge: usize,
    pub interior: usize,
    pub gap: usize,
    pub other: usize,
}

// Rust: `range` and the loop over it. Its start and its end can lie past the blocks: the end is cut to them, and from a
// start that is not before the end there is nothing to label.
fn label_range(w: Windows, lo: f64, hi: f64, c: BlockClass, class: &mut [f64])
    ensures { class.new ≡ labelled class.old (in_range w.len lo hi) (code_of c) }
{
    let a = w.first_from(lo);
    let e = w.past_last(hi).min(class.len());
    if a < e {
        class[a..e].fill(f64::from(c));
    }
}

// Each block of a slice whose centre passes a test. The first block starts at sample `first`; where the others start is
// added up by hand in `from`, and not counted by `enumerate`, so that no turn of the loop has a product of a block's
// number and length (docs/DECISIONS.md, 46).
fn label_where<F: Fn(f64) -> bool>(
    w: Windows,
    first: usize,
    c: BlockClass,
    passes: F,
    class: &mut [f64],
)
    requires starts_bound { first + length class.old * w.len ≤ 67108864 }
    requires callable { F.IsAlwaysCallable passes }
    ensures { (p : Float → Bool) → ((k : Float) (t : Bool) → F.post passes k t → t ≡ p k)
        → class.new ≡ labelled class.old (λ b. p (centre_of (first + b * w.len) w.len)) (code_of c) }
{
    let half = w.to_centre();
    let x = f64::from(c);
    let mut from = first;
    for block in class.iter_mut() {
        if passes(float::exact(from) + half) {
            *block = x;
        }
        from += w.len;
    }
}

// Rust: the loop over the blocks of an interior. That the row is short is a clause here, in label_interior, label_fit
// and label_rim: a type of short rows would be lent as `&mut`, and each would have to say that it hands back as many.
fn label_amid(w: Windows, lo: f64, hi: f64, c: BlockClass, class: &mut [f64])
    requires { length class.old ≤ 131072 }
    ensures { class.new ≡ labelled class.old (amid w.len lo hi) (code_of c) }
{
    let a = w.first_from(lo);
    let e = w.past_last(hi).min(class.len());
    if a < e {
        let amid = |centre| centre > lo && centre < hi;
        label_where(w, a * w.len, c, amid, &mut class[a..e]);
    }
}

// Rust: the loop over the elements, of one.
fn label_element(w: Windows, e: KeyedElement, class: &mut [f64])
    ensures { class.new ≡ element_labelled w.rate.hz e class.old }
{
    let r = RISE_S * w.rate.hz;
    label_range(
        w,
        e.start - 3.0 * r,
        e.end + 3.0 * r,
        BlockClass::Other,
        class,
    );
}

// Rust: the first half of the loop over the fits, of one.
fn label_interior(w: Windows, e: KeyedElement, class: &mut [f64])
    requires { length class.old ≤ 131072 }
    ensures { class.new ≡ labelled class.old (inside w.rate.hz (times_of e)) (code_of Interior) }
{
    let r = RISE_S * w.rate.hz;
    if e.end - e.start > 4.0 * r {
        label_amid(
            w,
            e.start + 2.0 * r,
            e.end - 2.0 * r,
            BlockClass::Interior,
            class,
        );
    }
}

// Rust: the loop over `[s, e]`, of one edge.
fn label_edge(w: Windows, at: f64, class: &mut [f64])
    ensures { class.new ≡ labelled class.old (at_edge w.rate.hz at) (code_of Edge) }
{
    let zone = EDGE_ZONE_S * w.rate.hz;
    label_range(w, at - zone, at + zone, BlockClass::Edge, class);
}

// Rust: the loop over the fits, of one.
fn label_fit(w: Windows, e: KeyedElement, class: &mut [f64])
    requires { length class.old ≤ 131072 }
    ensures { class.new ≡ fit_labelled w.rate.hz e class.old }
{
    label_interior(w, e, class);
    label_edge(w, e.start, class);
    label_edge(w, e.end, class);
}

// Rust: the loop over the elements, of those of the fits.
fn label_fitted(w: Windows, fits: &Fits, class: &mut [f64])
    ensures { class.new ≡ in_turn (λ f. element_labelled w.rate.hz f.element) (fits_in fits.now.numbers.now fits.now.count) class.old }
{
    for place in fits.each() {
        label_element(w, fit_at(place, 0).element, class);
    }
}

// Rust: the loop over the elements, of those found.
fn label_elements(w: Windows, elements: &Elements, class: &mut [f64])
    ensures { class.new ≡ in_turn (element_labelled w.rate.hz) (elements_in elements.now.numbers.now elements.now.count) class.old }
{
    for place in elements.each() {
        label_element(w, element_at(place, 0), class);
    }
}

// Rust: the loop over the fits.
fn label_fits(w: Windows, fits: &Fits, class: &mut [f64])
    requires { length class.old ≤ 131072 }
    ensures { class.new ≡ in_turn (λ f. fit_labelled w.rate.hz f.element) (fits_in fits.now.numbers.now fits.now.count) class.old }
{
    for place in fits.each() {
        label_fit(w, fit_at(place, 0).element, class);
    }
}

// Rust: the last loop.
fn label_rim(w: Windows, n: usize, class: &mut [f64])
    requires n_bound { n ≤ 1048576 }
    requires class_len_bound { length class.old ≤ 131072 }
    ensures { class.new ≡ labelled class.old (on_rim w.rate.hz n) (code_of Other) }
{
    let rim = RIM_S * w.rate.hz;
    let last = float::exact(n) - rim;
    let on_rim = |centre| centre < rim || centre > last;
    label_where(w, 0, BlockClass::Other, on_rim, class);
}

// Rust: classify_blocks. The estimate is its elements and fits. The elements of the fits label as the others do, then
// each fit its interior and its edges.
pub fn classify_blocks(
    rate: SampleRate,
    n: usize,
    elements: &Elements,
    fits: &Fits,
    class: &mut [f64],
)
    requires n_bound { n ≤ 1048576 }
    requires class_len { length class.old ≡ blocks_of rate.hz n }
    ensures { class.new
        ≡ codes_of (class_of rate.hz n (fits_in fits.now.numbers.now fits.now.count) (elements_in elements.now.numbers.now elements.now.count)) (blocks_of rate.hz n) }
{
    let w = Windows::new(rate);
    class.fill(f64::from(BlockClass::Gap));
    label_fitted(w, fits, class);
    label_elements(w, elements, class);
    label_fits(w, fits, class);
    label_rim(w, n, class);
}

// How many blocks have the class c, in a slice that holds the number of each block's class. Each block adds 0 or 1: to
// count what a `filter` lets through is a branch on every block's class, which is mispredicted where classes change.
pub fn count_class(class: &[f64], c: BlockClass) -> usize
    ensures { result ≡ count_in class.now c }
{
    let code = f64::from(c);
    class.iter().map(|x| usize::from(*x == code)).sum()
}

// How many blocks have each class.
pub fn count_classes(class: &[f64]) -> ClassCounts
    ensures { result ≡ counts_in class.now }
{
    ClassCounts {
        edge: count_class(class, BlockClass::Edge),
        interior: count_class(class, BlockClass::Interior),
        gap: count_class(class, BlockClass::Gap),
        other: count_class(class, BlockClass::Other),
    }
}
