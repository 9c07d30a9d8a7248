#![tactic(auto)]
// The clauses at one record: what is found at a name, and at a line by its operation.
use sets::NameNo;

pub mod lines;
pub mod names;

// A broken clause: its number, its box (0 for clause 1), its record: a name, a site or a line; and the name that is missing. A
// clause goes by its number, as in the paper and in what is written.
#[derive(Clone, Copy, Debug, PartialEq, Eq)]
pub struct Broken {
    pub clause: u8,
    pub boxno: usize,
    pub place: usize,
    pub name: NameNo,
}
