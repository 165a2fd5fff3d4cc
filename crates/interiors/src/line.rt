// The weighted least squares of `fit_elements`: the slope of the line through points of phase over time.
ghost use Rattle.std.specs.Prelude.{◌≡◌, ◌+◌, ◌*◌, ◌/◌, ◌^◌, ◌≤◌, ◌<◌, length};
ghost use Rattle.lists.specs.Sums.{total};
ghost use Rattle.interiors.specs.Line.{time_of, weighted, moment, line_slope};
ghost use Rattle.interiors.specs.Inner.{phase_in, weight_in};

// Rust: `t` in `fit_elements`, of block b of an interior that begins at i0.
pub fn time_of(i0: usize, block: usize, b: usize) -> f64
    requires block_bound { i0 + b * block ≤ 2 ^ 20 }
    requires block_bound_2 { block ≤ 2 ^ 20 }
    ensures { result ≡ time_of i0 block b }
{
    row::centre(i0 + b * block, block)
}

// The points of the blocks of an interior that begins at i0. Point b is the pair (phase, weight) at place b of a lent
// slice, where a row of complex numbers has its number b; its time is computed.
#[derive(Clone, Copy)]
pub struct Points<'a> {
    pub numbers: &'a [f64],
    pub i0: usize,
    pub block: usize,
    pub ghost within: { i0 + length numbers.now / 2 * block ≤ 2 ^ 20 },
    pub ghost block_within: { block ≤ 2 ^ 20 },
}

// The sums of the weights, of the weighted times and of the weighted phases.
#[derive(Clone, Copy)]
pub struct Sums {
    pub weight: f64,
    pub time: f64,
    pub phase: f64,
}

// Σ w (t − tm) (p − pm) and Σ w (t − tm) (t − tm).
#[derive(Clone, Copy)]
pub struct Moments {
    pub num: f64,
    pub den: f64,
}

impl<'a> Points<'a> {
    // The time of point b.
    fn time(&self, b: usize) -> f64
        requires { b < length self.now.numbers.now / 2 }
        ensures { result ≡ time_of self.now.i0 self.now.block b }
    {
        time_of(self.i0, self.block, b)
    }

    fn sums(&self) -> Sums
        ensures weight_value { result.weight ≡ total (weight_in self.now.numbers.now) (length self.now.numbers.now / 2) }
        ensures time_value { let l = self.now.numbers.now in result.time ≡ weighted (weight_in l) (time_of self.now.i0 self.now.block) (length l / 2) }
        ensures phase_value { let l = self.now.numbers.now in result.phase ≡ weighted (weight_in l) (phase_in l) (length l / 2) }
    {
        let mut weight = -0.0;
        let mut time = -0.0;
        let mut phase = -0.0;
        let (points, _) = self.numbers.as_chunks::<2>();
        for (b, [p, w]) in points.iter().enumerate() {
            weight = weight + *w;
            time = time + *w * self.time(b);
            phase = phase + *w * *p;
        }
        Sums {
            weight,
            time,
            phase,
        }
    }

    fn moments(&self, tm: f64, pm: f64) -> Moments
        ensures num_value { let l = self.now.numbers.now in result.num ≡ moment (weight_in l) (time_of self.now.i0 self.now.block) tm (phase_in l) pm (length l / 2) }
        ensures den_value { let l = self.now.numbers.now in result.den ≡ moment (weight_in l) (time_of self.now.i0 self.now.block) tm (time_of self.now.i0 self.now.block) tm (length l / 2) }
    {
        let mut num = -0.0;
        let mut den = -0.0;
        let (points, _) = self.numbers.as_chunks::<2>();
        for (b, [p, w]) in points.iter().enumerate() {
            let t = self.time(b) - tm;
            let wt = *w * t;
            num = num + wt * (*p - pm);
            den = den + wt * t;
        }
        Moments { num, den }
    }

    // Rust: the slope in `fit_elements`. With fewer than two points its callers do not come here: the slope is 0.
    pub fn slope(&self) -> f64
        requires { 2 ≤ length self.now.numbers.now / 2 }
        ensures { let l = self.now.numbers.now in result ≡ line_slope (weight_in l) (time_of self.now.i0 self.now.block) (phase_in l) (length l / 2) }
    {
        let s = self.sums();
        if s.weight > 0.0 {
            let m = self.moments(s.time / s.weight, s.phase / s.weight);
            if m.den > 0.0 {
                return m.num / m.den;
            }
        }
        0.0
    }
}
