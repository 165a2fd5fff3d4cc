// The blocks of a recording at a sample rate: each is as long as the edge window.
ghost use Rattle.std.specs.Prelude.{◌≡◌, ◌≤◌};
ghost use Rattle.row.specs.Window.{window_of};
ghost use Rattle.classes.specs.Classify.{first_from, past_last};
ghost use Rattle.classes.specs.Inner.{to_centre};

use row::SampleRate;

#[derive(Clone, Copy)]
pub struct Windows {
    pub rate: SampleRate,
    pub len: usize,
    pub ghost is_window: { len ≡ window_of rate.hz },
    pub ghost short: { len ≤ 512 },
}

impl Windows {
    pub fn new(rate: SampleRate) -> Windows
        ensures { result.rate.hz ≡ rate.hz }
    {
        Windows {
            rate,
            len: rate.window(),
        }
    }

    // From a block's first sample to its centre: half of what is between its first sample and its last.
    pub fn to_centre(self) -> f64
        ensures { result ≡ to_centre self.len }
    {
        (float::exact(self.len) - 1.0) / 2.0
    }

    // Rust: `a` in `range`.
    pub fn first_from(self, lo: f64) -> usize
        ensures { result ≡ first_from self.len lo }
    {
        let l = float::exact(self.len);
        float::to_whole(float::max(float::ceil((lo - self.to_centre()) / l), 0.0))
    }

    // Rust: `b` in `range`.
    pub fn past_last(self, hi: f64) -> usize
        ensures { result ≡ past_last self.len hi }
    {
        let l = float::exact(self.len);
        float::to_whole(float::max(float::floor((hi - self.to_centre()) / l) + 1.0, 0.0))
    }
}
