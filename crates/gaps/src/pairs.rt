// Hot gap blocks, and pairs of consecutive gap blocks, against a reference. Rust: lines 525 to 527 and 548 to 569 of
// cancel.rs in second_carrier_evidence.
ghost use Rattle.std.specs.Prelude.{◌≡◌, ◌+◌, ◌*◌, ◌≤◌, ◌<◌, ◌^◌, length};
ghost use Rattle.complex.specs.Rows.{z_at};
ghost use Rattle.classes.specs.declared.class.BlockClass.TheVariants.{Gap};
ghost use Rattle.prepared.specs.Inner.{of_class};
ghost use Rattle.gaps.specs.Inner.{pair_plus};
ghost use Rattle.gaps.specs.Pairs.{above, preceded, followed, pair_at, in_pair, lagged, gaps_of, strong, pairs_of};

use classes::{BlockClass, count_class, is_class};
use complex::{Complex, get};
use constants::{HOT_FACTOR, PAIR_FACTOR};
use prepared::classed::ClassedMeans;

// How many gap blocks there are, and how many of them are hot.
#[derive(Clone, Copy)]
pub struct Gaps {
    pub blocks: usize,
    pub hot: usize,
}

// How many pairs there are, the sum of their products, and the sum of the products' sizes.
#[derive(Clone, Copy)]
pub struct Pairs {
    pub count: usize,
    pub sum: Complex,
    pub size: f64,
}

impl Pairs {
    pub const NO_PAIRS: Pairs = Pairs {
        count: 0,
        sum: Complex::ZERO,
        size: 0.0,
    };

    // One more pair, with the product p.
    fn with(self, p: Complex) -> Pairs
        requires { self.count + 1 < 2 ^ 64 }
        ensures { result ≡ pair_plus self p }
    {
        Pairs {
            count: self.count + 1,
            sum: self.sum.add(p),
            size: self.size + p.norm(),
        }
    }
}

// Classed blocks at a level of power. That b is one of them stands in a clause of each method: it is said of the
// argument.
#[derive(Clone, Copy)]
pub struct AtLevel<'a> {
    pub held: ClassedMeans<'a>,
    pub level: f64,
}

impl<'a> AtLevel<'a> {
    // Whether block b is a gap block whose power is above the level.
    fn above(&self, b: usize) -> bool
        requires { b < length self.now.held.codes.now }
        ensures { result ≡ above (of_class self.now.held.codes.now Gap) (z_at self.now.held.means.now) self.now.level b }
    {
        is_class(self.held.codes, b, BlockClass::Gap)
            && get(self.held.means, b).norm_sqr() > self.level
    }

    // The same of the block before block b, where there is one. This and the next are two lines and not one function
    // for both sides: which side is asked is then in the name, as in the definitions.
    fn preceded(&self, b: usize) -> bool
        requires { b < length self.now.held.codes.now }
        ensures { result ≡ preceded (above (of_class self.now.held.codes.now Gap) (z_at self.now.held.means.now) self.now.level) b }
    {
        b > 0 && self.above(b - 1)
    }

    // The same of the block after it.
    fn followed(&self, b: usize) -> bool
        requires { b < length self.now.held.codes.now }
        ensures { result ≡ followed (above (of_class self.now.held.codes.now Gap) (z_at self.now.held.means.now) self.now.level) (length self.now.held.codes.now) b }
    {
        b + 1 < self.held.codes.len() && self.above(b + 1)
    }

    // Whether a pair ends at block b. Rust: the test of the loop over `gap_idx.windows(2)`.
    fn pair_at(&self, b: usize) -> bool
        requires { b < length self.now.held.codes.now }
        ensures { result ≡ pair_at (above (of_class self.now.held.codes.now Gap) (z_at self.now.held.means.now) self.now.level) b }
    {
        self.preceded(b) && self.above(b)
    }

    // Whether block b is in a pair. Rust: what goes into `pair_blocks`.
    pub fn in_pair(&self, b: usize) -> bool
        requires { b < length self.now.held.codes.now }
        ensures { result ≡ in_pair (above (of_class self.now.held.codes.now Gap) (z_at self.now.held.means.now) self.now.level) (length self.now.held.codes.now) b }
    {
        self.above(b) && (self.preceded(b) || self.followed(b))
    }
}

// The product of the pair that ends at block b.
fn lagged(held: &ClassedMeans, b: usize) -> Complex
    requires first { 1 ≤ b }
    requires last { b < length held.now.codes.now }
    ensures { result ≡ lagged (z_at held.now.means.now) b }
{
    get(held.means, b).mul(get(held.means, b - 1).conj())
}

// Rust: `gap_idx.len()` and `hot`.
pub fn count_gaps(held: &ClassedMeans, reference: f64) -> Gaps
    ensures { result ≡ gaps_of (of_class held.now.codes.now Gap) (z_at held.now.means.now) reference (length held.now.codes.now) }
{
    let hot = AtLevel {
        held: *held,
        level: HOT_FACTOR * reference,
    };
    Gaps {
        blocks: count_class(held.codes, BlockClass::Gap),
        hot: (0..held.codes.len()).filter(|b| hot.above(*b)).count(),
    }
}

// Rust: the loop over `gap_idx.windows(2)`.
pub fn sum_pairs(held: &ClassedMeans, reference: f64) -> Pairs
    ensures { result ≡ pairs_of (strong (of_class held.now.codes.now Gap) (z_at held.now.means.now) reference) (z_at held.now.means.now) (length held.now.codes.now) }
{
    let strong = AtLevel {
        held: *held,
        level: PAIR_FACTOR * reference,
    };
    // A loop and no `fold`: its test says that b has a block before it, and its invariant that few pairs are found yet.
    let mut found = Pairs::NO_PAIRS;
    for b in 0..held.codes.len() {
        if strong.pair_at(b) {
            found = found.with(lagged(held, b));
        }
    }
    found
}
