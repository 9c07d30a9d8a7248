#![tactic(auto)]
// The clauses, each at one name, site or line, over an estimate that has been read: met, or the name that is missing. Clauses 4, 5 and 6 are
// tested here by what they ask for the line's channel. Each function asks of the estimate only the blocks
// that it reads; clause 7 asks for all blocks of its box.
// A set of names is a word, since words are joined with & and |; that it has no digit past the names is a clause.
// Bounds of indices and counts stand in the clauses: a type for each bound would be taken apart at every use.
ghost use Rattle.std.specs.Prelude.{◌≡◌, ◌+◌, ◌*◌, ◌<◌, ◌≤◌, length};
ghost use Rattle.definitions.specs.Sets as names;
ghost use Rattle.definitions.specs.Estimate.{estimate_of};
ghost use Rattle.definitions.specs.Clauses as clauses;
ghost use Rattle.records.specs.Records.{site_in, line_in};
ghost use Rattle.sets.specs.Each.{TakesMembers};
ghost use Rattle.sets.specs.Names.{NamesOnly};
ghost use Rattle.subsets.specs.Within.{within_in};
ghost use Rattle.estimate.specs.Known.{BoxOfNames};
ghost use Rattle.clauses.specs.Each.{ShortAtEach};
ghost use Rattle.clauses.specs.Known.{LineOfNames, MayTurn, on_wall};

use records::{Line, Site};
use sets::{Ascending, NameNo};

// A line of a model that has been read: its names are below 60.
#[derive(Clone, Copy)]
pub struct NamedLine {
    pub line: Line,
    pub ghost names: { LineOfNames (line_in line) },
}

// f at each member of s, ascending, up to the first name that is missing.
#[tactic(auto, using(crate::proofs::Each::shorts))]
pub fn at_each<F: Fn(NameNo) -> Result<(), NameNo>>(s: u64, f: F) -> Result<(), NameNo>
    requires { TakesMembers (F.pre f) s }
    ensures { ShortAtEach (F.post f) s result }
{
    for n in Ascending(s) {
        f(n)?;
    }
    Ok(())
}

// n in rho(n) for each n in s, ascending: clause 1, where s has the free names.
#[tactic(auto, using(crate::proofs::Members::shorts))]
pub fn own_missing(estimate: &[u8], s: u64) -> Result<(), NameNo>
    requires there { 512 ≤ length estimate.now }
    requires names { NamesOnly s }
    ensures { within_in result ≡ names.first_short s (λ n. names.absent ((estimate_of estimate.now).rho n) n) }
{
    at_each(s, |n| subsets::absent(estimate::rho(estimate, n), n))
}

// The same as a test, for callers that need no name.
pub fn own_within(estimate: &[u8], s: u64) -> bool
    requires there { 512 ≤ length estimate.now }
    requires names { NamesOnly s }
    ensures { result ≡ names.for_each s (λ n. names.has ((estimate_of estimate.now).rho n) n) }
{
    own_missing(estimate, s).is_ok()
}

// The subject of a starting site in shown(b) or hidden(b), as its byte says: 0 or 1, a number since document 01 gives it as one.
#[tactic(auto, using(crate::proofs::Tests::clauses))]
fn on_wall(estimate: &[u8], b: usize, s: Site) -> Result<(), NameNo>
    requires { 512 * (2 + 2 * b) ≤ length estimate.now }
    ensures { within_in result ≡ on_wall (estimate_of estimate.now) b (site_in s) }
{
    if s.flag == 0 {
        subsets::absent(estimate::shown(estimate, b), s.subject)
    } else {
        subsets::absent(estimate::hidden(estimate, b), s.subject)
    }
}

// 2. starting site: its subject in shown(b) or hidden(b) as its byte says; its type within eps(b, subject).
#[tactic(auto, using(crate::proofs::Tests::clauses))]
pub fn clause2(estimate: &[u8], b: usize, s: Site) -> Result<(), NameNo>
    requires there { 512 * (2 + 2 * b) ≤ length estimate.now }
    requires name { s.subject.0 < 62 }
    ensures { within_in result ≡ clauses.clause2 (estimate_of estimate.now) b (site_in s) }
{
    on_wall(estimate, b, s)?;
    subsets::missing(s.names, estimate::eps(estimate, b, s.subject))
}

// 3. restriction of n: n in rho(n). Clauses 1 and 7 ask it too, in one call each.
#[tactic(auto, using(crate::proofs::Members::shorts), unfolding(definitions::specs::Clauses::clause3))]
pub fn clause3(estimate: &[u8], l: Line) -> Result<(), NameNo>
    requires there { 512 ≤ length estimate.now }
    requires name { l.name1.0 < 62 }
    ensures { within_in result ≡ clauses.clause3 (estimate_of estimate.now) (line_in l) }
{
    subsets::absent(estimate::rho(estimate, l.name1), l.name1)
}

// 4 asks rho(q) within a set, 5 and 6 a set within rho(q): the two tests are turned round.

// 4. output on p of q, by the names that every kap(b, a) has, a in rho(p): rho(q) is within them.
#[tactic(auto, using(crate::proofs::Members::gathered))]
pub fn sends_within(estimate: &[u8], most: u64, l: NamedLine) -> bool
    requires there { 512 ≤ length estimate.now }
    ensures { result ≡ names.within ((estimate_of estimate.now).rho l.line.name2.0) most }
{
    sets::is_subset(estimate::rho(estimate, l.line.name2), most)
}

// 5 and 6. input on p into q, by all that the clause asks of rho(q) there: it is within rho(q).
#[tactic(auto, using(crate::proofs::Members::gathered))]
pub fn takes(estimate: &[u8], asks: u64, l: NamedLine) -> bool
    requires there { 512 ≤ length estimate.now }
    ensures { result ≡ names.within asks ((estimate_of estimate.now).rho l.line.name2.0) }
{
    sets::is_subset(asks, estimate::rho(estimate, l.line.name2))
}

// rho(g) within x for each g in s, ascending.
#[tactic(auto, using(crate::proofs::Members::shorts))]
pub fn types_missing(estimate: &[u8], s: u64, x: u64) -> Result<(), NameNo>
    requires there { 512 ≤ length estimate.now }
    requires names { NamesOnly s }
    ensures { within_in result ≡ names.first_short s (λ g. names.missing ((estimate_of estimate.now).rho g) x) }
{
    at_each(s, |g| subsets::missing(estimate::rho(estimate, g), x))
}

// The same as a test, for callers that need no name. As own_within: each is the test of its own walk, and the two walks ask different things.
pub fn types_within(estimate: &[u8], s: u64, x: u64) -> bool
    requires there { 512 ≤ length estimate.now }
    requires names { NamesOnly s }
    ensures { result ≡ names.for_each s (λ g. names.within ((estimate_of estimate.now).rho g) x) }
{
    types_missing(estimate, s, x).is_ok()
}

// 7. expose n: n in rho(n) and in shown(b); rho(g) within eps(b, n) for each g of the type.
#[tactic(auto, using(crate::proofs::Tests::sevens))]
pub fn clause7(estimate: &[u8], b: usize, l: NamedLine) -> Result<(), NameNo>
    requires names { BoxOfNames estimate.now b }
    ensures { within_in result ≡ clauses.clause7 (estimate_of estimate.now) b (line_in l.line) }
{
    let n = l.line.name1;
    subsets::absent(estimate::rho(estimate, n), n)?;
    subsets::absent(estimate::shown(estimate, b), n)?;
    types_missing(estimate, l.line.names, estimate::eps(estimate, b, n))
}

// The names that a line may turn, by hide from shown to hidden and by unhide back: those that are in `to` or not in `from`.
#[tactic(auto, using(crate::proofs::Tests::turns))]
pub fn may_turn(from: u64, to: u64) -> u64
    ensures { MayTurn from to result }
{
    to | !from
}

// 8 and 9 are two clauses of the paper: one function would take the two sets, and serve two contracts.

// 8. hide p: each a in rho(p) that is in shown(b) is in hidden(b).
#[tactic(auto, using(crate::proofs::Tests::turns))]
pub fn clause8(estimate: &[u8], b: usize, l: Line) -> Result<(), NameNo>
    requires there { 512 * (2 + 2 * b) ≤ length estimate.now }
    requires name { l.name1.0 < 62 }
    ensures { within_in result ≡ clauses.clause8 (estimate_of estimate.now) b (line_in l) }
{
    let p = estimate::rho(estimate, l.name1);
    let shown = estimate::shown(estimate, b);
    let hidden = estimate::hidden(estimate, b);
    subsets::missing(p, may_turn(shown, hidden))
}

// 9. unhide p: each a in rho(p) that is in hidden(b) is in shown(b).
#[tactic(auto, using(crate::proofs::Tests::turns))]
pub fn clause9(estimate: &[u8], b: usize, l: Line) -> Result<(), NameNo>
    requires there { 512 * (2 + 2 * b) ≤ length estimate.now }
    requires name { l.name1.0 < 62 }
    ensures { within_in result ≡ clauses.clause9 (estimate_of estimate.now) b (line_in l) }
{
    let p = estimate::rho(estimate, l.name1);
    let shown = estimate::shown(estimate, b);
    let hidden = estimate::hidden(estimate, b);
    subsets::missing(p, may_turn(hidden, shown))
}
