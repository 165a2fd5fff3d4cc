// The measures at a given estimate, for C: each returns 0 or a refusal's number, and writes figures where it returns 0.
ghost use Rattle.std.specs.Prelude.{◌≡◌};
ghost use Rattle.capi.specs.Measures.{residual_called, residual_call, evidence_called, evidence_call};

use crate::answers::told;
use cancel::GivenEstimate;
use figures::{EVIDENCE_FIGURES, RESIDUAL_FIGURES, of_evidence, of_residual};

#[unsafe(no_mangle)]
pub extern "C" fn cancel_residual_check(
    iq: &[f32],
    fs: f64,
    carrier_hz: f64,
    carrier_step_hz: f64,
    elements: &[f64],
    element_count: usize,
    fits: &[f64],
    fit_count: usize,
    work: &mut [f64],
    figures: &mut [f64; RESIDUAL_FIGURES],
) -> u64
    ensures { residual_called result work.new figures.new
        ≡ residual_call iq.now fs carrier_hz carrier_step_hz elements.now element_count fits.now fit_count work.old figures.old }
{
    let given = GivenEstimate {
        carrier_hz,
        carrier_step_hz,
        elements,
        element_count,
        fits,
        fit_count,
    };
    told(
        cancel::residual_check(iq, fs, &given, work),
        figures,
        of_residual,
    )
}

#[unsafe(no_mangle)]
pub extern "C" fn cancel_second_carrier_evidence(
    iq: &[f32],
    fs: f64,
    carrier_hz: f64,
    carrier_step_hz: f64,
    elements: &[f64],
    element_count: usize,
    fits: &[f64],
    fit_count: usize,
    work: &mut [f64],
    figures: &mut [f64; EVIDENCE_FIGURES],
) -> u64
    ensures { evidence_called result work.new figures.new
        ≡ evidence_call iq.now fs carrier_hz carrier_step_hz elements.now element_count fits.now fit_count work.old figures.old }
{
    let given = GivenEstimate {
        carrier_hz,
        carrier_step_hz,
        elements,
        element_count,
        fits,
        fit_count,
    };
    told(
        cancel::second_carrier_evidence(iq, fs, &given, work),
        figures,
        of_evidence,
    )
}
