// The samples of a recording, two f32 each.
ghost use Rattle.std.specs.Prelude.{◌≡◌};
ghost use Rattle.row.specs.Samples.{all_finite};

// Question 3. No early way out: without one the loop takes many samples a turn.
pub fn all_finite(iq: &[f32]) -> bool
    ensures { result ≡ all_finite iq.now }
{
    let mut ok = true;
    for x in iq {
        ok = ok & float::finite(*x);
    }
    ok
}
