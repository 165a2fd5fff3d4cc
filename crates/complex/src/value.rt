// A complex number of two f64: a value with its own operations, each made of single rounded operations in the order
// of num_complex. They are methods that take self by value, and no `impl Add`: 01 names that form.
ghost use Rattle.std.specs.Prelude.{◌≡◌};
ghost use Rattle.complex.specs.Value.{c_new, c_add, c_sub, c_mul, c_conj, c_norm_sqr, c_norm, c_arg, c_div, c_polar};

use trig::Sines;

#[derive(Clone, Copy)]
pub struct Complex {
    pub re: f64,
    pub im: f64,
}

impl Complex {
    pub const ZERO: Complex = Complex { re: 0.0, im: 0.0 };

    pub fn new(re: f64, im: f64) -> Complex
        ensures { result ≡ c_new re im }
    {
        Complex { re, im }
    }

    // w at the angle t. The sine table is lent, so that it is made once and not at each call.
    pub fn from_polar(w: f64, t: f64, sine: &Sines) -> Complex
        ensures { result ≡ c_polar w t }
    {
        let p = sine.sin_cos(t);
        Complex {
            re: w * p.cos,
            im: w * p.sin,
        }
    }

    pub fn add(self, o: Complex) -> Complex
        ensures { result ≡ c_add self o }
    {
        Complex {
            re: self.re + o.re,
            im: self.im + o.im,
        }
    }

    pub fn sub(self, o: Complex) -> Complex
        ensures { result ≡ c_sub self o }
    {
        Complex {
            re: self.re - o.re,
            im: self.im - o.im,
        }
    }

    pub fn mul(self, o: Complex) -> Complex
        ensures { result ≡ c_mul self o }
    {
        Complex {
            re: self.re * o.re - self.im * o.im,
            im: self.re * o.im + self.im * o.re,
        }
    }

    pub fn conj(self) -> Complex
        ensures { result ≡ c_conj self }
    {
        Complex {
            re: self.re,
            im: -self.im,
        }
    }

    pub fn norm_sqr(self) -> f64
        ensures { result ≡ c_norm_sqr self }
    {
        self.re * self.re + self.im * self.im
    }

    // The parts are named, so that they come in registers: `self.norm_sqr()` has them come in memory.
    pub fn norm(self) -> f64
        ensures { result ≡ c_norm self }
    {
        root::sqrt(Complex::new(self.re, self.im).norm_sqr())
    }

    pub fn arg(self) -> f64
        ensures { result ≡ c_arg self }
    {
        trig::arg(self.re, self.im)
    }

    // Each part divided by a real number.
    pub fn div_real(self, d: f64) -> Complex
        ensures { result ≡ c_div self d }
    {
        Complex {
            re: self.re / d,
            im: self.im / d,
        }
    }
}
