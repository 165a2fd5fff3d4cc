// The powers of the blocks of one class, one after the other, and a percentile of them. Rust: lines 493 to 502 of
// cancel.rs in residual_check, 528 to 531 in second_carrier_evidence, with the `percentile` of each list.
ghost use Rattle.std.specs.Prelude.{◌≡◌, ◌≤◌, length};
ghost use Rattle.lists.specs.Count.{count_to};
ghost use Rattle.lists.specs.Those.{keep};
ghost use Rattle.rank.specs.Select.{percentile_of};
ghost use Rattle.complex.specs.Rows.{z_at};
ghost use Rattle.prepared.specs.Powers.{block_power};
ghost use Rattle.prepared.specs.Inner.{of_class, class_powers};

use crate::classed::ClassedMeans;
use classes::BlockClass;
use rank::select::percentile;

// Rust: the `push`es of a class, and `interior`. The answer is how many they are.
pub fn gather(held: &ClassedMeans, class: BlockClass, out: &mut [f64]) -> usize
    requires { length held.now.codes.now ≤ length out.old }
    ensures few { result ≤ length held.now.codes.now }
    ensures kept { (result ≡ count_to (of_class held.now.codes.now class) (length held.now.codes.now))
        × (out.new ≡ keep out.old 0 (of_class held.now.codes.now class) (block_power (z_at held.now.means.now)) (length held.now.codes.now)) }
{
    let code = f64::from(class);
    // By hand: n is the answer, and the places zipped with what is kept would not tell how many were filled.
    let mut n: usize = 0;
    for (b, x) in held.codes.iter().enumerate() {
        if *x == code {
            out[n] = complex::get(held.means, b).norm_sqr();
            n += 1;
        }
    }
    n
}

// A percentile of a class's powers, and how many they are.
#[derive(Clone, Copy)]
pub struct Level {
    pub value: Option<f64>,
    pub count: usize,
}

// The powers of a class as `gather` has them, and their p-th percentile.
pub fn level_of(held: &ClassedMeans, class: BlockClass, p: f64, out: &mut [f64]) -> Level
    requires room { length held.now.codes.now ≤ length out.old }
    requires blocks_bound { length held.now.codes.now ≤ 2097152 }
    ensures { (result.value ≡ percentile_of (class_powers held.now.means.now held.now.codes.now (length held.now.codes.now) class) p)
        × (result.count ≡ length (class_powers held.now.means.now held.now.codes.now (length held.now.codes.now) class)) }
{
    let count = gather(held, class, out);
    Level {
        value: percentile(&out[..count], p),
        count,
    }
}
