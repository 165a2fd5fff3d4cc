// Comparisons: bit for bit, where all NaNs are one and both zeros are one.
ghost use Rattle.std.specs.Prelude.{◌≡◌, Float, length, map};
ghost use Rattle.stored.specs.Same.{same_number, same_firsts, same_figures, changed_in, lent_from};

use crate::units::double;

// What lists and work slices hold before a call.
pub const LENT: f64 = -7.25;

// Does a row hold what it held before the call, from one place on?
pub fn as_lent(row: &[f64], from: usize) -> bool
    ensures { result ≡ lent_from row.now from }
{
    row.iter().skip(from).all(|x| *x == LENT)
}

// == says that a NaN is another number than itself; here all NaNs are one.
#[tactic(auto, unfolding(crate::specs::Same::same_number))]
fn same(a: f64, b: f64) -> bool
    ensures { result ≡ same_number a b }
{
    (a.is_nan() && b.is_nan()) || a == b
}

// Are the first n of both rows the same, each as the f64 that it is converted to?
#[tactic(auto, unfolding(crate::specs::Same::same_firsts))]
fn same_firsts<T: Copy + Into<f64>>(a: &[T], b: &[T], n: usize) -> bool
    ensures { (value : T → Float) → ((x : T) (y : Float) → T.converts x y → y ≡ value x)
        → result ≡ same_firsts (map value a.now) (map value b.now) n }
{
    n <= a.len()
        && n <= b.len()
        && a.iter()
            .zip(b)
            .take(n)
            .all(|(x, y)| same((*x).into(), (*y).into()))
}

// Are the first n numbers of both rows the same?
pub fn same_list(a: &[f64], b: &[f64], n: usize) -> bool
    ensures { result ≡ same_firsts a.now b.now n }
{
    same_firsts(a, b, n)
}

// Are the floats of a row those that another begins with?
pub fn same_floats(a: &[f32], b: &[f32]) -> bool
    ensures { result ≡ same_firsts a.now b.now (length a.now) }
{
    same_firsts(a, b, a.len())
}

// Are figures those that are stored?
#[tactic(auto, unfolding(crate::specs::Same::same_figures))]
pub fn same_figures(figures: &[f64], stored: &[u8]) -> bool
    ensures { result ≡ same_figures figures.now stored.now }
{
    stored.len() == 8 * figures.len()
        && figures
            .iter()
            .zip(stored.chunks_exact(8))
            .all(|(x, bytes)| same(*x, double(bytes, 0)))
}

// In how many samples do two rows differ?
pub fn changed(a: &[f32], b: &[f32]) -> u64
    ensures { result ≡ changed_in a.now b.now }
{
    a.chunks_exact(2)
        .zip(b.chunks_exact(2))
        .filter(|(x, y)| !same_floats(x, y))
        .count() as u64
}
