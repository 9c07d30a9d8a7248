// The kinds of moves.
ghost use Rattle.state.specs.Kinds.{KindOf};

// The nine kinds, by their numbers.
#[derive(Clone, Copy, Debug, PartialEq, Eq)]
pub enum Kind {
    Drop = 1,
    Spread = 2,
    New = 3,
    Copy = 4,
    Expose = 5,
    Hide = 6,
    Unhide = 7,
    Intra = 8,
    Inter = 9,
}

// A number that is no kind's.
#[derive(Clone, Copy, Debug, PartialEq, Eq)]
pub struct UnknownKind;

impl TryFrom<u32> for Kind {
    type Error = UnknownKind;

    ghost try_from_gives = { KindOf };

    #[tactic(auto, using(crate::proofs::Others::kind_of_other))]
    fn try_from(number: u32) -> Result<Kind, UnknownKind> {
        match number {
            1 => Ok(Kind::Drop),
            2 => Ok(Kind::Spread),
            3 => Ok(Kind::New),
            4 => Ok(Kind::Copy),
            5 => Ok(Kind::Expose),
            6 => Ok(Kind::Hide),
            7 => Ok(Kind::Unhide),
            8 => Ok(Kind::Intra),
            9 => Ok(Kind::Inter),
            _ => Err(UnknownKind),
        }
    }
}
