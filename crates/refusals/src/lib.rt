#![tactic(auto)]
// What a reader answers: nothing to refuse, or the first refusal with its number and its two places.
ghost use Rattle.std.specs.Prelude.{◌≡◌};
ghost use Rattle.definitions.specs.Bounded.{some_if};
ghost use Rattle.definitions.specs.Answer.{refusal};
ghost use Rattle.refusals.specs.Answers.{answer_in, rule_number};

// The paper's refusals by number; 12 to 20, those of moves, are `deciding::Blocked`.
#[derive(Clone, Copy, PartialEq, Eq)]
pub enum Rule {
    Length = 1,
    Check = 2,
    Heading = 3,
    Count = 4,
    Stray = 5,
    Site = 6,
    Line = 7,
    Tree = 8,
    Reach = 9,
    Room = 10,
    Spoilt = 11,
}

// The paper's refusal: its number, and its two places. The number is a word of the exported calls: it is that of a `Rule`, or of a
// `deciding::Blocked` where a move is refused.
#[derive(Clone, Copy, Debug, PartialEq, Eq)]
pub struct Refusal {
    pub number: u8,
    pub place: usize,
    pub second: usize,
}

// A refusal where a test says so, by its number, which may be any. `Rule::fault_if` calls it with a rule's number.
pub fn fault_if(bad: bool, number: u8, place: usize, second: usize) -> Result<(), Refusal>
    ensures { answer_in result ≡ some_if bad (refusal number place second) }
{
    if bad {
        Err(Refusal {
            number,
            place,
            second,
        })
    } else {
        Ok(())
    }
}

impl Rule {
    // This refusal where a test says so.
    pub fn fault_if(self, bad: bool, place: usize, second: usize) -> Result<(), Refusal>
        ensures { answer_in result ≡ some_if bad (refusal (rule_number self) place second) }
    {
        fault_if(bad, self as u8, place, second)
    }
}
