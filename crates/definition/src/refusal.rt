// "Refusal numbers": the names that document 01 gives them, and the number of each (specs/Answer.antt).
ghost use Rattle.std.specs.Prelude.{◌≡◌};
ghost use Rattle.definition.specs.Answer.{refusal_number};

// What a call, a reader or the program refuses by.
#[derive(Clone, Copy, Debug, PartialEq, Eq)]
pub enum Refusal {
    BadArgument,
    AlreadyHave,
    Gap,
    TooLate,
    NothingThere,
    Idle,
    NoRoom,
    ShortBuffer,
    Cut,
    Overlong,
    TooBig,
    OutOfRange,
    OutOfOrder,
    Trailing,
    TooLong,
    BadState,
}

// A refusal of bytes, with its offset: the place of the first byte of the number at fault.
#[derive(Clone, Copy, Debug, PartialEq, Eq)]
pub struct Fault {
    pub refusal: Refusal,
    pub at: usize,
}

impl From<Refusal> for u32 {
    ghost from_gives = { λ r n. n ≡ refusal_number r };

    fn from(refusal: Refusal) -> u32 {
        match refusal {
            Refusal::BadArgument => 1,
            Refusal::AlreadyHave => 2,
            Refusal::Gap => 3,
            Refusal::TooLate => 4,
            Refusal::NothingThere => 5,
            Refusal::Idle => 6,
            Refusal::NoRoom => 7,
            Refusal::ShortBuffer => 8,
            Refusal::Cut => 9,
            Refusal::Overlong => 10,
            Refusal::TooBig => 11,
            Refusal::OutOfRange => 12,
            Refusal::OutOfOrder => 13,
            Refusal::Trailing => 14,
            Refusal::TooLong => 15,
            Refusal::BadState => 16,
        }
    }
}
