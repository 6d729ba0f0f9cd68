// Why a call is refused: 01, "Answer codes".
ghost use Rattle.std.specs.Prelude.{◌≡◌};
ghost use Rattle.tables.specs.Refused.{code_of, code_in};

// In the order of checking: of several that apply, a call is refused for the first.
#[derive(Clone, Copy, PartialEq, Eq, PartialOrd, Ord, Debug)]
pub enum Refusal {
    // The table isn't sound.
    Unsound,
    // A number is out of its range.
    OutOfRange,
    // An open of an open slot; a close, read or write on a closed one.
    SlotState,
    // An exchange from a server to itself.
    ToItself,
    // No server is in reach.
    NoReach,
    // No server in reach is up to date.
    Behind,
    // A server in reach is up to date, and none such has a free place.
    Full,
    // A length doesn't fit.
    Length,
}

impl From<Refusal> for u32 {
    fn from(refusal: Refusal) -> Self
        ensures { result ≡ code_of refusal }
    {
        match refusal {
            Refusal::Unsound => 1,
            Refusal::OutOfRange => 2,
            Refusal::SlotState => 3,
            Refusal::ToItself => 4,
            Refusal::NoReach => 5,
            Refusal::Behind => 6,
            Refusal::Full => 7,
            Refusal::Length => 8,
        }
    }
}

// The code of a call that answers nothing else: 0 where it is done. No `From`: neither `Result` nor `u32` is this crate's.
pub fn code(outcome: Result<(), Refusal>) -> u32
    ensures { result ≡ code_in outcome }
{
    match outcome {
        Ok(()) => 0,
        Err(refusal) => u32::from(refusal),
    }
}
