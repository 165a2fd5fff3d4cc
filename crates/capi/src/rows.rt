// The amplitude row with its threshold, and the class of each block, for C: each returns 0 or a refusal's number, and
// writes figures where it returns 0.
ghost use Rattle.std.specs.Prelude.{◌≡◌};
ghost use Rattle.row.specs.Envelope.{row_length};
ghost use Rattle.given.specs.Blocks.{blocks_in};
ghost use Rattle.capi.specs.Rows.{row_called, row_call, classes_called, classes_call};

use crate::answers::told;
use cancel::GivenEstimate;
use figures::{CLASSES_FIGURES, ROW_FIGURES, of_classes, of_row};

#[unsafe(no_mangle)]
pub extern "C" fn cancel_amplitude_row(
    iq: &[f32],
    fs: f64,
    carrier_hz: f64,
    row: &mut [f64],
    work: &mut [f64],
    figures: &mut [f64; ROW_FIGURES],
) -> u64
    ensures { row_called result (row_length iq.now fs) row.new work.new figures.new
        ≡ row_call iq.now fs carrier_hz row.old work.old figures.old }
{
    told(
        cancel::amplitude_row(iq, fs, carrier_hz, row, work),
        figures,
        of_row,
    )
}

#[unsafe(no_mangle)]
pub extern "C" fn cancel_block_classes(
    iq_len: usize,
    fs: f64,
    carrier_hz: f64,
    carrier_step_hz: f64,
    elements: &[f64],
    element_count: usize,
    fits: &[f64],
    fit_count: usize,
    classes: &mut [f64],
    figures: &mut [f64; CLASSES_FIGURES],
) -> u64
    ensures { classes_called result (blocks_in iq_len fs) classes.new figures.new
        ≡ classes_call iq_len fs carrier_hz carrier_step_hz elements.now element_count fits.now fit_count classes.old figures.old }
{
    let given = GivenEstimate {
        carrier_hz,
        carrier_step_hz,
        elements,
        element_count,
        fits,
        fit_count,
    };
    told(
        cancel::block_classes(iq_len, fs, &given, classes),
        figures,
        of_classes,
    )
}
