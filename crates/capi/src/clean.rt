// Whether a residual check is clean, for C.
ghost use Rattle.std.specs.Prelude.{◌≡◌};
ghost use Rattle.capi.specs.Clean.{clean_called, clean_call};

use figures::{CHECK_FIGURES, CLEAN_FIGURES, given_check, of_clean};

// It asks nothing and returns 0. Of the five figures of the check the two ratios count.
#[unsafe(no_mangle)]
pub extern "C" fn cancel_clean(
    check: &[f64; CHECK_FIGURES],
    figures: &mut [f64; CLEAN_FIGURES],
) -> u64
    ensures { clean_called result figures.new ≡ clean_call check.now }
{
    let c = given_check(check);
    *figures = of_clean(c.clean());
    0
}
