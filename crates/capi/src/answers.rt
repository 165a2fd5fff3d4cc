// What every call that answers figures hands to C.
ghost use Rattle.std.specs.Prelude.{◌≡◌, MatchResult};
ghost use Rattle.questions.specs.Refusals.{number_of};

use cancel::Refusal;

// An accepted call returns 0 and writes its figures; a refused one returns its refusal's number and writes none.
pub fn told<T, A: Drop, F: FnOnce(T) -> A + Drop>(
    answer: Result<T, Refusal>,
    figures: &mut A,
    of: F,
) -> u64
    requires { F.IsAlwaysCallable of }
    ensures { MatchResult answer
        (λ x. (result ≡ 0) × F.post of x figures.new)
        (λ r. (result ≡ number_of r) × (figures.new ≡ figures.old)) }
{
    match answer {
        Ok(x) => {
            *figures = of(x);
            0
        }
        Err(refusal) => u64::from(refusal),
    }
}
