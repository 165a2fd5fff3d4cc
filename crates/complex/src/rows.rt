// A row of complex numbers in a lent slice of f64, the real part of number k at 2 k and the imaginary part after it.
ghost use Rattle.std.specs.Prelude.{◌≡◌, ◌+◌, ◌*◌, ◌<◌, ◌≤◌, length};
ghost use Rattle.complex.specs.Rows.{z_at, z_set, c_sum};

use crate::value::Complex;

pub fn put(out: &mut [f64], k: usize, z: Complex)
    requires { 2 * k + 1 < length out.old }
    ensures { out.new ≡ z_set out.old k z }
{
    out[2 * k] = z.re;
    out[2 * k + 1] = z.im;
}

pub fn get(row: &[f64], k: usize) -> Complex
    requires { 2 * k + 1 < length row.now }
    ensures { result ≡ z_at row.now k }
{
    Complex {
        re: row[2 * k],
        im: row[2 * k + 1],
    }
}

// The sum of the n complex numbers from number a. Rust: `.iter().sum()`, which starts at zero.
pub fn sum(row: &[f64], a: usize, n: usize) -> Complex
    requires { 2 * (a + n) ≤ length row.now }
    ensures { result ≡ c_sum (z_at row.now) a n }
{
    let mut acc = Complex::ZERO;
    let (numbers, _) = row[2 * a..2 * (a + n)].as_chunks::<2>();
    for [re, im] in numbers {
        acc = acc.add(Complex::new(*re, *im));
    }
    acc
}
