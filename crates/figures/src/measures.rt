// The figures of the measures at a given estimate.
ghost use Rattle.std.specs.Prelude.{◌≡◌};
ghost use Rattle.figures.specs.Measures.{residual_figures, evidence_figures};

use crate::optional::{present, value};
use crate::places::{EVIDENCE_FIGURES, RESIDUAL_FIGURES};
use float::from_whole;
use measure::{ResidualCheck, SecondCarrierEvidence};

pub fn of_residual(r: ResidualCheck) -> [f64; RESIDUAL_FIGURES]
    ensures { result ≡ residual_figures r }
{
    [
        r.edge_over_neighbour_db,
        r.interior_over_neighbour_db,
        from_whole(r.edge_blocks),
        from_whole(r.interior_blocks),
        from_whole(r.gap_blocks),
    ]
}

pub fn of_evidence(e: SecondCarrierEvidence) -> [f64; EVIDENCE_FIGURES]
    ensures { result ≡ evidence_figures e }
{
    let offset = e.offset_hz;
    [
        from_whole(e.gap_blocks),
        e.hot_fraction,
        present(offset),
        value(offset),
        e.coherence,
    ]
}
