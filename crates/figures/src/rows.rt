// The figures of the amplitude row with its threshold, and of the blocks' classes.
ghost use Rattle.std.specs.Prelude.{◌≡◌};
ghost use Rattle.figures.specs.Rows.{row_figures, classes_figures};

use crate::optional::{present, value};
use crate::places::{CLASSES_FIGURES, ROW_FIGURES};
use elements::AmplitudeRow;
use float::from_whole;
use given::BlockClasses;

pub fn of_row(row: AmplitudeRow) -> [f64; ROW_FIGURES]
    ensures { result ≡ row_figures row }
{
    let threshold = row.threshold;
    [
        from_whole(row.amplitudes),
        present(threshold),
        value(threshold),
    ]
}

pub fn of_classes(b: BlockClasses) -> [f64; CLASSES_FIGURES]
    ensures { result ≡ classes_figures b }
{
    let counts = b.counts;
    [
        from_whole(b.blocks),
        from_whole(counts.edge),
        from_whole(counts.interior),
        from_whole(counts.gap),
        from_whole(counts.other),
    ]
}
