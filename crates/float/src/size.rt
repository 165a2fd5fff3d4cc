// Whether a number is finite.
ghost use Rattle.std.specs.Prelude.{◌≡◌, Float};
ghost use Rattle.float.specs.Size.{finite_f};

// A number of either format.
pub trait Number: Copy {
    // What it is in the logic.
    ghost value: { Self → Float };

    fn is_finite(self) -> bool
        ensures { result ≡ finite_f (value self) };
}

impl Number for f64 {
    ghost value = { λ x. x };

    #[tactic(auto, using(crate::proofs::Finiteness::finite_is))]
    fn is_finite(self) -> bool {
        f64::is_finite(self)
    }
}

impl Number for f32 {
    ghost value = { λ x. x };

    #[tactic(auto, using(crate::proofs::Finiteness::finite_is))]
    fn is_finite(self) -> bool {
        f32::is_finite(self)
    }
}

// Rust: f64::is_finite and f32::is_finite.
pub fn finite<T: Number>(x: T) -> bool
    ensures { result ≡ finite_f (T.value x) }
{
    x.is_finite()
}
