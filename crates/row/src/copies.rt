// A row copied into another.
ghost use Rattle.std.specs.Prelude.{◌≡◌, length};

// std's copy_from_slice promises the same and calls memmove, one more function of the C library to believe.
pub fn copy(from: &[f64], to: &mut [f64])
    requires { length to.old ≡ length from.now }
    ensures { to.new ≡ from.now }
{
    for (i, place) in to.iter_mut().enumerate() {
        *place = from[i];
    }
}
