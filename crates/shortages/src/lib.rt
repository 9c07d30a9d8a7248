#![tactic(auto)]
// Clauses 4 and 5 at a line: one test by what was gathered for its channel; where that says no, the name that is missing, by a walk in the
// paper's order: names of the channel ascending. Both ask of the estimate the blocks of box b. 4 asks one set within each,
// 5 each within one: two clauses of the paper, for which one function would take the test and the call.
ghost use Rattle.std.specs.Prelude.{◌≡◌};
ghost use Rattle.definitions.specs.Sets as names;
ghost use Rattle.definitions.specs.Estimate.{estimate_of};
ghost use Rattle.definitions.specs.Clauses as clauses;
ghost use Rattle.records.specs.Records.{line_in};
ghost use Rattle.subsets.specs.Within.{within_in};
ghost use Rattle.estimate.specs.Known.{BoxOfNames};
ghost use Rattle.clauses.specs.Known.{MetWhere};

use clauses::{NamedLine, at_each};
use sets::NameNo;

// 4. output on p of q: for each a in rho(p), rho(q) within kap(b, a). most: names that every kap(b, a) has.
#[tactic(auto, using(crate::proofs::Walks::found))]
pub fn clause4(estimate: &[u8], most: u64, b: usize, l: NamedLine) -> Result<(), NameNo>
    requires names { BoxOfNames estimate.now b }
    requires met { MetWhere (names.within ((estimate_of estimate.now).rho l.line.name2.0) most) (clauses.clause4 (estimate_of estimate.now) b (line_in l.line)) }
    ensures { within_in result ≡ clauses.clause4 (estimate_of estimate.now) b (line_in l.line) }
{
    if clauses::sends_within(estimate, most, l) {
        return Ok(());
    }
    let q = estimate::rho(estimate, l.line.name2);
    at_each(estimate::rho(estimate, l.line.name1), |a| {
        subsets::missing(q, estimate::kap(estimate, b, a))
    })
}

// 5. input on p into q: for each a in rho(p), kap(b, a) within rho(q). all: the union of kap(b, a).
#[tactic(auto, using(crate::proofs::Walks::found))]
pub fn clause5(estimate: &[u8], all: u64, b: usize, l: NamedLine) -> Result<(), NameNo>
    requires names { BoxOfNames estimate.now b }
    requires met { MetWhere (names.within all ((estimate_of estimate.now).rho l.line.name2.0)) (clauses.clause5 (estimate_of estimate.now) b (line_in l.line)) }
    ensures { within_in result ≡ clauses.clause5 (estimate_of estimate.now) b (line_in l.line) }
{
    if clauses::takes(estimate, all, l) {
        return Ok(());
    }
    let q = estimate::rho(estimate, l.line.name2);
    at_each(estimate::rho(estimate, l.line.name1), |a| {
        subsets::missing(estimate::kap(estimate, b, a), q)
    })
}
