// The first records of a lent list, each in a place of WIDTH numbers.
ghost use Rattle.std.specs.Prelude.{◌≡◌, ◌*◌, ◌<◌, ◌≤◌, length};
ghost use Rattle.std.specs.Simd.{first_chunks};

#[derive(Clone, Copy)]
pub struct Places<'a, const WIDTH: usize> {
    pub numbers: &'a [f64],
    pub count: usize,
    pub ghost room: { WIDTH * count ≤ length numbers.now },
}

impl<'a, const WIDTH: usize> Places<'a, WIDTH> {
    pub fn new(numbers: &'a [f64], count: usize) -> Places<'a, WIDTH>
        requires { WIDTH * count ≤ length numbers.now }
        ensures { (result.numbers.now ≡ numbers.now) × (result.count ≡ count) }
    {
        Places { numbers, count }
    }

    // One after the other. What a place holds is read by `element_at` or `fit_at`, of place 0, as callers read a list.
    pub fn each(&self) -> &'a [[f64; WIDTH]]
        requires { 0 < WIDTH }
        ensures value { result.now ≡ first_chunks WIDTH self.now.count self.now.numbers.now }
        ensures len { length result.now ≡ self.now.count }
    {
        let (places, _) = self.numbers.as_chunks::<WIDTH>();
        &places[..self.count]
    }
}
