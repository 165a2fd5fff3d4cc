// The sample rate, the step of the edge window, how many steps there are, and the centre of a run of samples.
ghost use Rattle.std.specs.Prelude.{◌≡◌, ◌^◌, ◌≤◌};
ghost use Rattle.row.specs.Window.{rate_ok, step_of, step_blocks, centre_of};

use constants::EDGE_WINDOW_S;

// Question 1. A NaN passes neither comparison.
pub fn rate_ok(fs: f64) -> bool
    ensures { result ≡ rate_ok fs }
{
    fs >= 2000.0 && fs <= 192000.0
}

// Rust: edge_window, which also answers the window, 8 times the step.
pub fn edge_step(fs: f64) -> usize
    ensures { result ≡ step_of fs }
{
    float::to_whole(float::max(float::round((fs * EDGE_WINDOW_S) / 8.0), 1.0))
}

// B, the number of whole steps in a recording.
pub fn step_blocks(iq: &[f32], fs: f64) -> usize
    ensures { result ≡ step_blocks iq.now fs }
{
    iq.len() / 2 / edge_step(fs)
}

// The centre of the len samples from sample a. Rust: `centre` in find_elements, `t` in fit_elements.
pub fn centre(a: usize, len: usize) -> f64
    requires a_bound { a ≤ 2 ^ 53 }
    requires len_bound { len ≤ 2 ^ 53 }
    ensures { result ≡ centre_of a len }
{
    float::exact(a) + (float::exact(len) - 1.0) / 2.0
}
