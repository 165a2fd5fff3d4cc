// What a refusal's number means. 1 to 7 are 01's questions; 8 to 19 are those that document 02 adds, each asked from
// the landing of its call on.
ghost use Rattle.std.specs.Prelude.{◌≡◌};
ghost use Rattle.questions.specs.Refusals.{number_of};

#[derive(Clone, Copy, Debug, PartialEq, Eq)]
pub enum Refusal {
    Rate = 1,
    Count = 2,
    Sample = 3,
    Carrier = 4,
    Places = 5,
    Work = 6,
    Given = 7,
    Valley = 8,
    Peak = 9,
    Hints = 10,
    Answers = 11,
    Records = 12,
    Evidence = 13,
    Tray = 14,
    Reference = 15,
    Unit = 16,
    Order = 17,
    Text = 18,
    Positions = 19,
}

impl From<Refusal> for u64 {
    ghost from_gives = { λ refusal number. number ≡ number_of refusal };

    fn from(refusal: Refusal) -> u64 {
        refusal as u64
    }
}
