#![tactic(auto)]
// One walk over a box's lines that may only show that none of them breaks a clause: each clause is tested for what was gathered of the lines.
// It names no line.
// A set of names is a word, since words are joined with & and |; that it has no digit past the names is a clause.
// Bounds of indices and counts stand in the clauses: a type for each bound would be taken apart at every use.
ghost use Rattle.std.specs.Prelude.{◌≡◌, ◌<◌, get_or, IfSome};
ghost use Rattle.definitions.specs.Sets as names;
ghost use Rattle.definitions.specs.Estimate.{estimate_of};
ghost use Rattle.records.specs.Records.{line_in};
ghost use Rattle.sets.specs.Names.{NamesOnly};
ghost use Rattle.sharing.specs.Shared.{Least, sent_by_others, may_send, GatheredOf};
ghost use Rattle.clause_walk.specs.Lines.{OpsOfNames, ListBelow, NotExpose, ShowsNames, PassesWith, ShowsList, ShowsLines};

use clauses::NamedLine;
use estimate::Estimate;
use line_gather::NamedLines;
use records::Op;
use sets::Ascending;
use sharing::{Gathered, Tables};

// Clause 3, the names of clause 7, and clauses 8 and 9.
#[tactic(auto, using(crate::proofs::Shows::named))]
fn names_pass(e: Estimate<'_>, b: usize, ops: &[u64; 16]) -> bool
    requires box_in { b < e.boxes }
    requires names { OpsOfNames ops.now }
    ensures { ShowsNames (estimate_of e.entry.image.now) b ops.now result }
{
    let image = e.image;
    let shown = e.shown(b);
    let hidden = e.hidden(b);
    let hides = clauses::may_turn(shown, hidden);
    let unhides = clauses::may_turn(hidden, shown);
    let exposed = ops[Op::Expose as usize];
    clauses::own_within(image, ops[Op::Restriction as usize])
        && clauses::own_within(image, exposed)
        && sets::is_subset(exposed, shown)
        && clauses::types_within(image, ops[Op::Hide as usize], hides)
        && clauses::types_within(image, ops[Op::Unhide as usize], unhides)
}

// Clause 4, channel by channel: on are the channels.
#[tactic(auto, using(crate::proofs::Shows::outputs))]
fn outputs_pass(e: Estimate<'_>, b: usize, on: u64, sent: &[u64; 64]) -> bool
    requires box_in { b < e.boxes }
    requires names { NamesOnly on }
    ensures { result ≡ names.for_each on (λ p. may_send (estimate_of e.entry.image.now) b ((estimate_of e.entry.image.now).rho p) (get_or sent.now p 0)) }
{
    let mut g = sharing::nothing();
    for p in Ascending(on) {
        g = sharing::for_outputs(e.image, e.boxes, b, e.rho(p), g);
        if !sets::is_subset(sent[usize::from(p.0)], g.most) {
            return false;
        }
    }
    true
}

// Clauses 5 and 6 at an input; others: all that other boxes may send, which is more than clause 6 asks. What they ask for the sets that it was
// gathered for, or None where the line does not pass.
#[tactic(auto, using(crate::proofs::Shows::inputs))]
fn input_passes(
    t: &Tables<'_>,
    b: usize,
    others: u64,
    l: NamedLine,
    g: Gathered,
) -> Option<Gathered>
    requires box_in { b < t.now.estimate.boxes }
    requires input { NotExpose (line_in l.line) }
    requires others { Least others (sent_by_others (estimate_of t.now.estimate.image.now) t.now.estimate.boxes b) }
    requires gathered { GatheredOf (estimate_of t.now.estimate.image.now) t.now.estimate.boxes b g }
    ensures { IfSome result (PassesWith (estimate_of t.now.estimate.image.now) t.now.estimate.boxes b (line_in l.line)) }
{
    let e = t.estimate;
    let s = e.rho(l.line.name1);
    let five = sharing::for_inputs(e.image, e.boxes, b, s, g);
    if !clauses::takes(e.image, five.all, l) {
        return None;
    }
    if clauses::takes(e.image, others, l) {
        return Some(five);
    }
    let six = t.for_partners(b, s, five);
    clauses::takes(e.image, six.asks, l).then_some(six)
}

// A line of the list: the type of an expose, or an input.
#[tactic(auto, using(crate::proofs::Shows::inputs))]
fn listed_passes(
    t: &Tables<'_>,
    b: usize,
    others: u64,
    l: NamedLine,
    g: Gathered,
) -> Option<Gathered>
    requires box_in { b < t.now.estimate.boxes }
    requires others { Least others (sent_by_others (estimate_of t.now.estimate.image.now) t.now.estimate.boxes b) }
    requires gathered { GatheredOf (estimate_of t.now.estimate.image.now) t.now.estimate.boxes b g }
    ensures { IfSome result (PassesWith (estimate_of t.now.estimate.image.now) t.now.estimate.boxes b (line_in l.line)) }
{
    let e = t.estimate;
    if l.line.op != Op::Expose as u8 {
        return input_passes(t, b, others, l, g);
    }
    let types = e.eps(b, l.line.name1);
    clauses::types_within(e.image, l.line.names, types).then_some(g)
}

// Clauses 5, 6 and 7 at the lines of the list.
#[tactic(auto, using(crate::proofs::Shows::lists))]
fn list_passes(named: NamedLines<'_>, t: &Tables<'_>, b: usize, listed: &[u8]) -> bool
    requires box_in { b < t.now.estimate.boxes }
    requires listed { ListBelow listed.now named.lines.n }
    ensures { ShowsList named.entry.lines.image.now (estimate_of t.now.estimate.image.now) t.now.estimate.boxes b named.entry.lines.k listed.now result }
{
    let others = sharing::sent_by_others(t.estimate, &t.each, b);
    let mut g = sharing::nothing();
    for i in listed {
        let l = named.line(usize::from(*i));
        let Some(passed) = listed_passes(t, b, others, l, g) else {
            return false;
        };
        g = passed;
    }
    true
}

// Whether one walk shows that none of the lines of box b breaks a clause.
#[tactic(auto, using(crate::proofs::Shows::shown))]
pub fn lines_pass(named: NamedLines<'_>, t: &Tables<'_>, b: usize) -> bool
    requires { b < t.now.estimate.boxes }
    ensures { ShowsLines named.entry.lines.image.now (estimate_of t.now.estimate.image.now) t.now.estimate.boxes b named.entry.lines.k named.entry.lines.n result }
{
    let e = t.estimate;
    let mut ops = [0u64; 16];
    let mut sent = [0u64; 64];
    let mut listed = [0u8; 128];
    let c = line_gather::gather(named, e.image, &mut ops, &mut sent, &mut listed);
    names_pass(e, b, &ops)
        && outputs_pass(e, b, ops[Op::Output as usize], &sent)
        && list_passes(named, t, b, &listed[..c])
}
