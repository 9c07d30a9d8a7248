#![tactic(auto)]
// Clause 6 at a line: one test by what was gathered for its channel; where that says no, the name that is missing, by a walk in the paper's
// order: names of the channel ascending, then boxes, then their shown names.
// A set of names is a word, since words are joined with & and |; that it has no digit past the names is a clause.
// Bounds of indices and counts stand in the clauses: a type for each bound would be taken apart at every use.
ghost use Rattle.std.specs.Prelude.{◌≡◌, ◌<◌};
ghost use Rattle.definitions.specs.Bounded.{first_below};
ghost use Rattle.definitions.specs.Sets as names;
ghost use Rattle.definitions.specs.Estimate.{estimate_of};
ghost use Rattle.definitions.specs.Clauses as clauses;
ghost use Rattle.records.specs.Records.{line_in};
ghost use Rattle.sets.specs.Names.{NamesOnly};
ghost use Rattle.subsets.specs.Within.{within_in};
ghost use Rattle.clauses.specs.Known.{MetWhere};
ghost use Rattle.partners.specs.Partners.{fitting, of_box, of_boxes};

use clauses::{NamedLine, at_each};
use estimate::Estimate;
use sets::NameNo;

// What box k may send on c, within q, where the type x shares a name with eps(k, c).
#[tactic(auto, using(crate::proofs::Partners::partners))]
fn at_name(e: Estimate<'_>, x: u64, q: u64, k: usize, c: NameNo) -> Result<(), NameNo>
    requires within { k < e.boxes }
    requires name { c.0 < 62 }
    ensures { within_in result ≡ fitting (estimate_of e.entry.image.now) x q k c.0 }
{
    if sets::intersects(x, e.eps(k, c)) {
        subsets::missing(e.kap(k, c), q)
    } else {
        Ok(())
    }
}

// The same for each shown name of box k, ascending, where it is not box b.
#[tactic(auto, using(crate::proofs::Partners::partners))]
fn at_box(e: Estimate<'_>, b: usize, x: u64, q: u64, k: usize) -> Result<(), NameNo>
    requires { k < e.boxes }
    ensures { within_in result ≡ of_box (estimate_of e.entry.image.now) b x q k }
{
    if k == b {
        return Ok(());
    }
    at_each(e.shown(k), |c| at_name(e, x, q, k, c))
}

// The same for each box, ascending.
#[tactic(auto, using(refusals::proofs::Answers::answers))]
fn at_boxes(e: Estimate<'_>, b: usize, x: u64, q: u64) -> Result<(), NameNo>
    ensures { within_in result ≡ first_below e.entry.boxes (of_box (estimate_of e.entry.image.now) b x q) }
{
    for k in 0..e.boxes {
        at_box(e, b, x, q, k)?;
    }
    Ok(())
}

// The same for the type of each a in s, ascending.
#[tactic(auto, using(crate::proofs::Partners::partners))]
fn each_partner(e: Estimate<'_>, b: usize, s: u64, q: u64) -> Result<(), NameNo>
    requires inside { b < e.boxes }
    requires members { NamesOnly s }
    ensures { within_in result ≡ names.first_short s (of_boxes (estimate_of e.entry.image.now) e.entry.boxes b q) }
{
    at_each(s, |a| at_boxes(e, b, e.eps(b, a), q))
}

// 6. the same line: for each a in rho(p) and shown(b), each other box k and each c in shown(k) where eps(b, a) and eps(k, c) share a name,
// kap(k, c) within rho(q). asks: the union of these kap(k, c).
#[tactic(auto, using(crate::proofs::Partners::found))]
pub fn clause6(e: Estimate<'_>, asks: u64, b: usize, l: NamedLine) -> Result<(), NameNo>
    requires inside { b < e.boxes }
    requires met { MetWhere (names.within asks ((estimate_of e.image.now).rho l.line.name2.0)) (clauses.clause6 (estimate_of e.image.now) e.boxes b (line_in l.line)) }
    ensures { within_in result ≡ clauses.clause6 (estimate_of e.entry.image.now) e.entry.boxes b (line_in l.line) }
{
    if clauses::takes(e.image, asks, l) {
        return Ok(());
    }
    let q = e.rho(l.line.name2);
    let s = sets::intersection(e.rho(l.line.name1), e.shown(b));
    each_partner(e, b, s, q)
}
