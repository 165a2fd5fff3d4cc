// The span of samples that a fit's synthesis covers.
ghost use Rattle.std.specs.Prelude.{◌≡◌};
ghost use Rattle.synth.specs.Span.{span_of};

use constants::RISE_S;
use fits::ElementFit;
use row::Span;

// Rust: fit_span.
pub fn fit_span(f: ElementFit, fs: f64, n: usize) -> Span
    ensures { result ≡ span_of fs n f }
{
    let e = f.element;
    let pad = 2.0 * RISE_S * fs;
    let lo = float::to_whole(float::max(float::floor(e.start - pad), 0.0));
    let past = float::to_whole(float::max(float::ceil(e.end + pad), 0.0));
    let hi = past.min(n);
    Span { lo: lo.min(hi), hi }
}
