// The kinds of steps, and the letters that stand for them.
ghost use Rattle.std.specs.Prelude.{◌≡◌, ◌≤◌};
ghost use Rattle.lines.specs.Read.{kind_of, count_of};
ghost use Rattle.lines.specs.Kinds.{number_of, number_in};

#[derive(Clone, Copy, Debug, PartialEq, Eq)]
pub enum Kind {
    Open,
    Close,
    Read,
    Write,
    Exchange,
}

impl Kind {
    // The kind that a letter stands for.
    #[tactic(auto, unfolding(crate::specs::Read::kind_of))]
    pub fn from_letter(letter: u8) -> Option<Self>
        ensures { number_in result ≡ kind_of letter }
    {
        match letter {
            b'o' => Some(Kind::Open),
            b'c' => Some(Kind::Close),
            b'r' => Some(Kind::Read),
            b'w' => Some(Kind::Write),
            b'x' => Some(Kind::Exchange),
            _ => None,
        }
    }

    // How many numbers stand in the line of a step of this kind.
    #[tactic(auto, unfolding(crate::specs::Read::count_of))]
    pub fn count(self) -> usize
        ensures { (result ≡ count_of (number_of self)) × (result ≤ 4) }
    {
        match self {
            Kind::Open => 2,
            Kind::Close => 1,
            Kind::Read | Kind::Exchange => 3,
            Kind::Write => 4,
        }
    }
}

// Its number in a step's words.
impl From<Kind> for u32 {
    fn from(kind: Kind) -> Self
        ensures { result ≡ number_of kind }
    {
        match kind {
            Kind::Open => 1,
            Kind::Close => 2,
            Kind::Read => 3,
            Kind::Write => 4,
            Kind::Exchange => 5,
        }
    }
}
