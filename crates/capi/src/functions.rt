// The functions of 01, part 1, that stand in for the platform's.
ghost use Rattle.std.specs.Prelude.{◌≡◌, ◌/◌, min, length};
ghost use Rattle.complex.specs.Rows.{z_fill};
ghost use Rattle.complex.specs.Units.{unit_at};
ghost use Rattle.float.specs.Single.{narrow_of};
ghost use Rattle.trig.specs.Circle.{sin_of, cos_of};
ghost use Rattle.trig.specs.Argument.{arg_of};
ghost use Rattle.logarithm.specs.Logarithm.{log10_of};
ghost use Rattle.complex.specs.Value.{c_new, c_norm};

use trig::Sines;

// The table is made at each call here: many angles are for cancel_cos_sin.
#[unsafe(no_mangle)]
pub extern "C" fn cancel_sin(x: f64) -> f64
    ensures { result ≡ sin_of x }
{
    let sine = Sines::new();
    sine.sin(x)
}

#[unsafe(no_mangle)]
pub extern "C" fn cancel_cos(x: f64) -> f64
    ensures { result ≡ cos_of x }
{
    let sine = Sines::new();
    sine.cos(x)
}

// The cosine and the sine of each angle, as complex numbers of `out`, for as many angles as have room there; their
// number. The table is made once.
#[unsafe(no_mangle)]
pub extern "C" fn cancel_cos_sin(angles: &[f64], out: &mut [f64]) -> usize
    ensures { (result ≡ min (length angles.now) (length out.old / 2))
        × (out.new ≡ z_fill out.old 0 (unit_at angles.now) (min (length angles.now) (length out.old / 2))) }
{
    let sine = Sines::new();
    complex::cos_sin(angles, out, &sine)
}

#[unsafe(no_mangle)]
pub extern "C" fn cancel_arg(re: f64, im: f64) -> f64
    ensures { result ≡ arg_of re im }
{
    trig::arg(re, im)
}

#[unsafe(no_mangle)]
pub extern "C" fn cancel_norm(re: f64, im: f64) -> f64
    ensures { result ≡ c_norm (c_new re im) }
{
    complex::Complex::new(re, im).norm()
}

#[unsafe(no_mangle)]
pub extern "C" fn cancel_log10(y: f64) -> f64
    ensures { result ≡ log10_of y }
{
    logarithm::log10(y)
}

#[unsafe(no_mangle)]
pub extern "C" fn cancel_narrow(x: f64) -> f32
    ensures { result ≡ narrow_of x }
{
    float::narrow(x)
}
