// The figures of a run.
ghost use Rattle.std.specs.Prelude.{◌≡◌};
ghost use Rattle.figures.specs.Running.{ran_figures};

use crate::flag::flag;
use crate::hypothesis::case_of;
use crate::optional::{present, value};
use crate::places::RUN_FIGURES;
use engine::RunFigures;
use float::from_whole;

pub fn of_run(f: RunFigures) -> [f64; RUN_FIGURES]
    ensures { result ≡ ran_figures f }
{
    let estimate = f.estimate;
    let found = estimate.found;
    let classes = f.classes;
    let residual = f.residual;
    let evidence = f.evidence;
    let offset = evidence.offset_hz;
    let hypothesis = f.hypothesis;
    let h = case_of(hypothesis);
    [
        from_whole(f.samples),
        from_whole(f.window),
        from_whole(found.key_downs),
        from_whole(found.listed),
        from_whole(found.short),
        from_whole(estimate.fitted),
        from_whole(f.skipped),
        from_whole(found.airtime),
        from_whole(f.blocks),
        from_whole(classes.edge),
        from_whole(classes.interior),
        from_whole(classes.gap),
        from_whole(classes.other),
        estimate.carrier_hz,
        estimate.carrier_step_hz,
        residual.edge_over_neighbour_db,
        residual.interior_over_neighbour_db,
        from_whole(residual.edge_blocks),
        from_whole(residual.interior_blocks),
        from_whole(residual.gap_blocks),
        from_whole(evidence.gap_blocks),
        evidence.hot_fraction,
        present(offset),
        value(offset),
        evidence.coherence,
        h.number,
        h.offset_hz,
        flag(f.taken),
    ]
}
