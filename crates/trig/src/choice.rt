// A choice between two numbers with no branch.
ghost use Rattle.std.specs.Prelude.{◌≡◌, if◌then◌else◌};

pub fn pick(b: bool, x: f64, y: f64) -> f64
    ensures { result ≡ (if b then x else y) }
{
    if b { x } else { y }
}
