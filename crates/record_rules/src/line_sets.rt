// A set of lines of a box, in one word of 128 digits, as sets of names are of 64: one for both would be a trait over the two widths, with laws for
// its shifts and digits, in place of two functions.
ghost use Rattle.std.specs.Prelude.{◌≡◌};
ghost use Rattle.definitions.specs.Sets.{has};
ghost use Rattle.records.specs.Records.{line_in};
ghost use Rattle.record_rules.specs.LineSets.{insert_line, insert_children, LineSetOf};

use records::{Line, Op};

// A set of the lines 0 to 127: line c is in it where binary digit c is 1.
#[derive(Clone, Copy)]
pub struct LineSet(pub u128);

// Line c is in the set: never where c is above 127.
#[tactic(auto, using(crate::proofs::RuleLaws::set_laws))]
pub fn has_line(s: LineSet, c: usize) -> bool
    ensures { result ≡ has s.0 c }
{
    if c < 128 { (s.0 >> c) & 1 == 1 } else { false }
}

// The set with line c put in: the set itself where c is above 127.
#[tactic(auto, using(crate::proofs::RuleLaws::set_laws))]
fn with_line(s: LineSet, c: usize) -> LineSet
    ensures { LineSetOf result (insert_line s.0 c) }
{
    if c < 128 { LineSet(s.0 | (1 << c)) } else { s }
}

// The children of a line put in. `shape_fits`, `tree_fits` and box_reach ask too which children an operation has, each to another end.
#[tactic(auto, using(crate::proofs::RuleLaws::set_laws))]
pub fn with_children(s: LineSet, l: Line) -> LineSet
    ensures { LineSetOf result (insert_children s.0 (line_in l)) }
{
    if l.op == Op::Nil as u8 {
        return s;
    }
    let first = with_line(s, l.child1);
    if l.op == Op::Parallel as u8 {
        with_line(first, l.child2)
    } else {
        first
    }
}
