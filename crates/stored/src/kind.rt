// What a record of the file is, by the number that it begins with (crates/replay/README.md).
ghost use Rattle.std.specs.Prelude.{◌≡◌};
ghost use Rattle.stored.specs.Kinds.{call_number, CallOf, KindOf};

use std::error::Error;
use std::fmt;

// A record that is not whole, or of no known kind.
#[derive(Clone, Copy, Debug, PartialEq, Eq)]
pub struct Broken;

impl fmt::Display for Broken {
    fn fmt<W: fmt::Write>(&self, f: &mut fmt::Formatter<W>) -> fmt::Result {
        f.write_str("the stored answers break off, or are not understood")
    }
}

impl Error for Broken {}

// The calls that stored cases are asked of.
#[derive(Clone, Copy, Debug, PartialEq, Eq)]
pub enum Call {
    FindElements,
    FitElements,
    EstimateStrong,
    ResidualCheck,
    SecondCarrierEvidence,
    Classify,
    Subtract,
    Run,
}

impl Call {
    pub const ALL: [Call; 8] = [
        Call::FindElements,
        Call::FitElements,
        Call::EstimateStrong,
        Call::ResidualCheck,
        Call::SecondCarrierEvidence,
        Call::Classify,
        Call::Subtract,
        Call::Run,
    ];

    // Its place among them.
    pub fn number(self) -> usize
        ensures { result ≡ call_number self }
    {
        self as usize
    }
}

impl fmt::Display for Call {
    fn fmt<W: fmt::Write>(&self, f: &mut fmt::Formatter<W>) -> fmt::Result {
        f.write_str(match self {
            Call::FindElements => "find_elements",
            Call::FitElements => "fit_elements",
            Call::EstimateStrong => "estimate_strong",
            Call::ResidualCheck => "residual_check",
            Call::SecondCarrierEvidence => "second_carrier_evidence",
            Call::Classify => "classify",
            Call::Subtract => "subtract",
            Call::Run => "run",
        })
    }
}

impl TryFrom<usize> for Call {
    type Error = Broken;

    ghost try_from_gives = { CallOf };

    fn try_from(number: usize) -> Result<Self, Broken> {
        match number {
            0 => Ok(Call::FindElements),
            1 => Ok(Call::FitElements),
            2 => Ok(Call::EstimateStrong),
            3 => Ok(Call::ResidualCheck),
            4 => Ok(Call::SecondCarrierEvidence),
            5 => Ok(Call::Classify),
            6 => Ok(Call::Subtract),
            7 => Ok(Call::Run),
            _ => Err(Broken),
        }
    }
}

// Records that put numbers into what is kept, the end, and cases: those with the Rust's answer, and those where one bit
// of it was changed, which are meant to differ.
#[derive(Clone, Copy, Debug, PartialEq, Eq)]
pub enum Kind {
    Recording,
    Floats,
    Left,
    LeftFloats,
    Elements,
    Fits,
    End,
    Stored(Call),
    Meant(Call),
}

impl TryFrom<usize> for Kind {
    type Error = Broken;

    ghost try_from_gives = { KindOf };

    fn try_from(number: usize) -> Result<Self, Broken> {
        match number {
            1 => Ok(Kind::Recording),
            2 => Ok(Kind::Floats),
            3 => Ok(Kind::Left),
            4 => Ok(Kind::LeftFloats),
            5 => Ok(Kind::Elements),
            6 => Ok(Kind::Fits),
            7 => Ok(Kind::End),
            16..=39 => Ok(Kind::Stored(Call::try_from(number - 16)?)),
            80..=103 => Ok(Kind::Meant(Call::try_from(number - 80)?)),
            _ => Err(Broken),
        }
    }
}
