#![tactic(auto)]
// What the lines of a box name, gathered in one walk, whose machine code has no branch on the operation: the first names of lines by operation,
// what outputs send by channel, and the inputs and exposes in a list.
// Bounds of indices and counts stand in the clauses: a type for each bound would be taken apart at every use.
ghost use Rattle.std.specs.Prelude.{◌≡◌, ◌<◌, ◌≤◌, length, replicate};
ghost use Rattle.records.specs.Places.{line_record_at};
ghost use Rattle.records.specs.Records.{line_in};
ghost use Rattle.line_gather.specs.Gathered.{LinesOfNames, NamePut, SentPut, ListPut, Gathers};

use clauses::NamedLine;
use records::{Line, Lines, Op};

// Lines of a model that has been read: their names are below 60.
#[derive(Clone, Copy)]
pub struct NamedLines<'a> {
    pub lines: Lines<'a>,
    pub ghost named: { LinesOfNames lines.image.now lines.k lines.n },
}

impl<'a> NamedLines<'a> {
    // Line i.
    #[tactic(auto, using(crate::proofs::Puts::gathering))]
    pub fn line(&self, i: usize) -> NamedLine
        requires { i < self.now.lines.n }
        ensures { line_in result.line ≡ line_record_at self.now.lines.image.now self.now.lines.k i }
    {
        NamedLine {
            line: self.lines.line(i),
        }
    }
}

// The first name of a line put into the set of its operation.
#[tactic(auto, using(crate::proofs::Puts::puts))]
fn put_name(ops: &mut [u64; 16], l: Line)
    ensures { NamePut ops.old (line_in l) ops.new }
{
    let o = usize::from(l.op % 16);
    ops[o] = sets::insert(ops[o], l.name1);
}

// What an output sends, q, put into the set of its channel: no name, where the line is not an output.
#[tactic(auto, using(crate::proofs::Puts::puts))]
fn put_sent(sent: &mut [u64; 64], l: NamedLine, q: u64)
    ensures { SentPut sent.old (line_in l.line) q sent.new }
{
    let p = usize::from(l.line.name1.0);
    let sends = if l.line.op == Op::Output as u8 { q } else { 0 };
    sent[p] = sets::union(sent[p], sends);
}

// Line i put at place c of a list; how many lines it has then: one more for an input and an expose.
#[tactic(auto, using(crate::proofs::Puts::puts))]
fn put_line(listed: &mut [u8; 128], c: usize, i: usize, l: Line) -> usize
    requires place { c < 128 }
    requires line { i < 128 }
    ensures { ListPut listed.old c i (line_in l) listed.new result }
{
    // A line's number is below 128: u8 has no From<usize>.
    listed[c] = i as u8;
    if (l.op == Op::Input as u8) | (l.op == Op::Expose as u8) {
        c + 1
    } else {
        c
    }
}

// The lines, into arrays of zeros; how many are in the list. Asks of the estimate only the blocks that it reads. Three arrays are lent and a count
// answered: fixed memory, no large array by value. A struct of them would be lent in their place, and taken apart by each function that fills one.
#[tactic(auto, using(crate::proofs::Puts::gathering))]
pub fn gather(
    named: NamedLines<'_>,
    estimate: &[u8],
    ops: &mut [u64; 16],
    sent: &mut [u64; 64],
    listed: &mut [u8; 128],
) -> usize
    requires there { 512 ≤ length estimate.now }
    requires ops_empty { ops.old ≡ replicate 16 0 }
    requires sent_empty { sent.old ≡ replicate 64 0 }
    requires list_empty { listed.old ≡ replicate 128 0 }
    ensures { Gathers named.entry.lines.image.now estimate.now named.entry.lines.k named.entry.lines.n ops.new sent.new listed.new result }
{
    let mut c = 0;
    for i in 0..named.lines.n {
        let l = named.line(i);
        put_name(ops, l.line);
        put_sent(sent, l, estimate::rho(estimate, l.line.name2));
        c = put_line(listed, c, i, l.line);
    }
    c
}
