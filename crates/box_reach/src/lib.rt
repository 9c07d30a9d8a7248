#![tactic(auto, using(crate::proofs::ReachLaws::reach))]
// Rule 9 in one box: the names bound strictly above each line, and the first line whose names do not reach it.
// That lines are those of box b, and that their tree fits, are clauses beside them: most walks ask only that they are there. A set of names is a
// word, since words are joined with & and |: what it is a set of is a clause too.
ghost use Rattle.std.specs.Prelude.{◌≡◌};
ghost use Rattle.definitions.specs.Image.{model_of};
ghost use Rattle.definitions.specs.ReadModel.{bound_before, reach_fits};
ghost use Rattle.refusals.specs.Answers.{answer_in};
ghost use Rattle.records.specs.Records.{line_in};
ghost use Rattle.records.specs.NameSets.{SetOf};
ghost use Rattle.records.specs.Places.{LinesAt};
ghost use Rattle.record_rules.specs.Rules.{is_free_or_unlisted};
ghost use Rattle.box_runs.specs.Runs.{TreesFit, box_misfit};
ghost use Rattle.box_reach.specs.Reach.{SetAt, SetAtChildren, HandedDownEach};

use records::names::binder;
use records::{Line, Lines, Op};
use refusals::{Refusal, Rule};

// The entry c set to v where a test is met and c is in range. A test beside the value, and no Option, which both callers would make of them.
fn set_at(up: &mut [u64; 124], c: usize, v: u64, yes: bool)
    ensures { SetAt up.old c v yes up.new }
{
    if yes && c < 124 {
        up[c] = v;
    }
}

// The entries of a line's children, set to the names bound above them.
fn set_at_children(up: &mut [u64; 124], l: Line, here: u64)
    ensures { SetAtChildren up.old (line_in l) here up.new }
{
    set_at(up, l.child1, here, l.op != Op::Nil as u8);
    set_at(up, l.child2, here, l.op == Op::Parallel as u8);
}

// The names that the lines hand down to each line: in a box whose tree fits, the names bound strictly above it. up has a word for each of 124
// lines: fixed memory.
pub fn above(lines: Lines<'_>, up: &mut [u64; 124])
    ensures { HandedDownEach lines.entry.image.now lines.entry.k lines.entry.n up.new }
{
    *up = [0u64; 124];
    for i in 0..lines.n {
        let l = lines.line(i);
        let here = sets::union(binder(l), up[i]);
        set_at_children(up, l, here);
    }
}

// 9 in box b, of these lines, in one run: what is bound above a line is handed down by the lines before it. free_or_unlisted: the names that
// need no binding; bound: those that earlier boxes bind.
pub fn box_reach(
    lines: Lines<'_>,
    b: usize,
    free_or_unlisted: u64,
    bound: u64,
) -> Result<(), Refusal>
    requires lines { LinesAt lines.image.now b lines.k lines.n }
    requires trees { TreesFit lines.image.now b lines.n }
    requires unbound { SetOf free_or_unlisted (is_free_or_unlisted (model_of lines.image.now).kinds) }
    requires bound { SetOf bound (bound_before (model_of lines.image.now) b 0) }
    ensures { answer_in result ≡ box_misfit 9 lines.entry.n (reach_fits (model_of lines.entry.image.now)) b }
{
    let mut up = [0u64; 124];
    let mut seen = bound;
    for i in 0..lines.n {
        let l = lines.line(i);
        let fits = record_rules::reach_fits(l, free_or_unlisted, up[i], seen);
        Rule::Reach.fault_if(!fits, b, i)?;
        let bs = binder(l);
        let here = sets::union(bs, up[i]);
        set_at_children(&mut up, l, here);
        seen = sets::union(seen, bs);
    }
    Ok(())
}
