// Why a call is refused, and by which number.
#![tactic(auto)]

ghost use Rattle.std.specs.Prelude.{◌≡◌};
ghost use Rattle.refusal.specs.definitions.Refusal.{number_of, answer_of};

// What a call may be refused for, each with its number.
#[derive(Clone, Copy, Debug, PartialEq, Eq)]
pub enum Refusal {
    Input = 1,
    Store = 2,
    Output = 3,
    Flags = 4,
    NoLock = 5,
    CutShort = 6,
    Length = 7,
    Version = 8,
    Kind = 9,
    Late = 10,
    Limit = 11,
    Tallies = 12,
    ShortRun = 13,
    MoreThanOne = 22,
    TooMany = 23,
}

impl From<Refusal> for u32 {
    ghost from_gives = { λ refusal number. number ≡ number_of refusal };

    fn from(refusal: Refusal) -> u32 {
        refusal as u32
    }
}

// A call's answer as the number that C is given: 0 is done.
pub fn number(answer: Result<(), Refusal>) -> u32
    ensures { result ≡ answer_of answer }
{
    match answer {
        Ok(()) => 0,
        Err(refusal) => u32::from(refusal),
    }
}
