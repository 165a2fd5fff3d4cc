// A yes or no as a figure: the C interface hands out numbers alone.
ghost use Rattle.std.specs.Prelude.{◌≡◌};
ghost use Rattle.figures.specs.Flag.{flag_of};

pub fn flag(yes: bool) -> f64
    ensures { result ≡ flag_of yes }
{
    f64::from(yes)
}
