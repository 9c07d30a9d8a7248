#![tactic(auto)]
// What one record of a model image says: a site, a line, the kind of a name, and the names that a line binds and uses.
// Bounds of indices and counts stand in the clauses: a type for each bound would be taken apart at every use.
ghost use Rattle.std.specs.Prelude.{◌≡◌, ◌<◌};
ghost use Rattle.records.specs.Records.{line_in};
ghost use Rattle.records.specs.Ops.{OpOf};
ghost use Rattle.records.specs.Places.{LinesThere, line_record_at};

use sets::NameNo;

pub mod inside;
pub mod names;

// The operations of lines.
#[derive(Clone, Copy, PartialEq, Eq)]
pub enum Op {
    Nil = 0,
    Parallel = 1,
    Replication = 2,
    Restriction = 3,
    Output = 4,
    Input = 5,
    Expose = 6,
    Hide = 7,
    Unhide = 8,
}

// A number that is no operation's.
#[derive(Clone, Copy, PartialEq, Eq)]
pub struct UnknownOp;

impl TryFrom<u8> for Op {
    type Error = UnknownOp;

    ghost try_from_gives = { OpOf };

    fn try_from(number: u8) -> Result<Op, UnknownOp> {
        match number {
            0 => Ok(Op::Nil),
            1 => Ok(Op::Parallel),
            2 => Ok(Op::Replication),
            3 => Ok(Op::Restriction),
            4 => Ok(Op::Output),
            5 => Ok(Op::Input),
            6 => Ok(Op::Expose),
            7 => Ok(Op::Hide),
            8 => Ok(Op::Unhide),
            _ => Err(UnknownOp),
        }
    }
}

// The kinds of names.
#[derive(Clone, Copy, PartialEq, Eq)]
pub enum NameKind {
    Free = 0,
    Restricted = 1,
    Received = 2,
    Exposed = 3,
}

// The listed names, and those of each kind.
#[derive(Clone, Copy)]
pub struct Kinds {
    pub listed: u64,
    pub free: u64,
    pub restricted: u64,
    pub received: u64,
    pub exposed: u64,
}

// A site's record; names is its type. flag is the byte of document 01, 0 shown or 1 hidden, and may be any other before rule 6 has passed.
#[derive(Clone, Copy)]
pub struct Site {
    pub subject: NameNo,
    pub flag: u8,
    pub spare: u64,
    pub names: u64,
}

// A line's record; names is its type. A child is a usize, as an index is: a u16 would be narrower for who takes a Line. op is the image's byte,
// which may be no Op's number before rule 7 has passed.
#[derive(Clone, Copy)]
pub struct Line {
    pub op: u8,
    pub name1: NameNo,
    pub name2: NameNo,
    pub spare: u8,
    pub child1: usize,
    pub child2: usize,
    pub names: u64,
}

// The n lines after block k of an image. A loop over them goes over 0..n and no Iterator: most loops say which line they stand at.
#[derive(Clone, Copy)]
pub struct Lines<'a> {
    pub image: &'a [u8],
    pub k: usize,
    pub n: usize,
    pub ghost there: { LinesThere image.now k n },
}

impl<'a> Lines<'a> {
    // Line i.
    #[tactic(auto, using(crate::proofs::PlaceLaws::places))]
    pub fn line(&self, i: usize) -> Line
        requires { i < self.now.n }
        ensures { line_in result ≡ line_record_at self.now.image.now self.now.k i }
    {
        inside::line(self.image, self.k, i)
    }
}
