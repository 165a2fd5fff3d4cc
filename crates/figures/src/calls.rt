// The figures of find_elements, fit_elements and estimate_strong.
ghost use Rattle.std.specs.Prelude.{◌≡◌};
ghost use Rattle.figures.specs.Calls.{found_figures, fitted_figures, estimate_figures};

use crate::places::{ESTIMATE_FIGURES, FIND_FIGURES, FIT_FIGURES};
use elements::Found;
use fits::Estimate;
use float::from_whole;

pub fn of_find(f: Found) -> [f64; FIND_FIGURES]
    ensures { result ≡ found_figures f }
{
    [
        from_whole(f.key_downs),
        from_whole(f.listed),
        from_whole(f.short),
        from_whole(f.airtime),
    ]
}

pub fn of_fit(fitted: usize) -> [f64; FIT_FIGURES]
    ensures { result ≡ fitted_figures fitted }
{
    [from_whole(fitted)]
}

pub fn of_estimate(e: Estimate) -> [f64; ESTIMATE_FIGURES]
    ensures { result ≡ estimate_figures e }
{
    let found = e.found;
    [
        e.carrier_hz,
        e.carrier_step_hz,
        from_whole(found.key_downs),
        from_whole(found.listed),
        from_whole(found.short),
        from_whole(found.airtime),
        from_whole(e.fitted),
    ]
}
