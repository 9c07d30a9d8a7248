// The clauses at one line.
// Bounds of indices and counts stand in the clauses: a type for each bound would be taken apart at every use.
ghost use Rattle.std.specs.Prelude.{◌≡◌, ◌<◌};
ghost use Rattle.definitions.specs.Estimate.{estimate_of};
ghost use Rattle.definitions.specs.Clauses.{broken_at};
ghost use Rattle.records.specs.Records.{line_in};
ghost use Rattle.subsets.specs.Within.{within_in};
ghost use Rattle.sharing.specs.Shared.{GatheredOf};
ghost use Rattle.record_clauses.specs.Found.{found_in};
ghost use Rattle.record_clauses.specs.Known.{ShowsMet, LineFound};

use crate::Broken;
use clauses::NamedLine;
use estimate::Estimate;
use records::{Op, UnknownOp};
use sets::NameNo;
use sharing::{Gathered, Tables};

// The clause is broken where a name is missing.
pub fn broken_at(
    w: Result<(), NameNo>,
    clause: u8,
    boxno: usize,
    place: usize,
) -> Result<(), Broken>
    ensures { found_in result ≡ broken_at clause boxno place (within_in w) }
{
    w.map_err(|name| Broken {
        clause,
        boxno,
        place,
        name,
    })
}

// What clauses 4, 5 and 6 ask of line l of box b, an output or an input; g: of an earlier line.
#[tactic(auto, using(crate::proofs::Steps::gathered))]
pub fn gather(t: &Tables<'_>, b: usize, l: NamedLine, g: Gathered) -> Gathered
    requires box_in { b < t.now.estimate.boxes }
    requires gathered { GatheredOf (estimate_of t.now.estimate.image.now) t.now.estimate.boxes b g }
    ensures gathered { GatheredOf (estimate_of t.now.estimate.image.now) t.now.estimate.boxes b result }
    ensures shows { ShowsMet (estimate_of t.now.estimate.image.now) t.now.estimate.boxes b (line_in l.line) result }
{
    let e = t.estimate;
    match Op::try_from(l.line.op) {
        Ok(Op::Output) => {
            let s = e.rho(l.line.name1);
            sharing::for_outputs(e.image, e.boxes, b, s, g)
        }
        Ok(Op::Input) => {
            let s = e.rho(l.line.name1);
            t.for_partners(b, s, sharing::for_inputs(e.image, e.boxes, b, s, g))
        }
        _ => g,
    }
}

// The clauses of line i of box b, by its operation; g: what 4, 5 and 6 ask there.
#[tactic(auto, using(crate::proofs::Steps::arms))]
pub fn by_operation(
    e: Estimate<'_>,
    g: Gathered,
    b: usize,
    i: usize,
    l: NamedLine,
) -> Result<(), Broken>
    requires box_in { b < e.boxes }
    requires shows { ShowsMet (estimate_of e.image.now) e.boxes b (line_in l.line) g }
    ensures { LineFound (estimate_of e.entry.image.now) e.entry.boxes b i (line_in l.line) (found_in result) }
{
    let image = e.image;
    match Op::try_from(l.line.op) {
        Ok(Op::Restriction) => broken_at(clauses::clause3(image, l.line), 3, b, i),
        Ok(Op::Output) => broken_at(shortages::clause4(image, g.most, b, l), 4, b, i),
        Ok(Op::Input) => {
            broken_at(shortages::clause5(image, g.all, b, l), 5, b, i)?;
            broken_at(partners::clause6(e, g.asks, b, l), 6, b, i)
        }
        Ok(Op::Expose) => broken_at(clauses::clause7(image, b, l), 7, b, i),
        Ok(Op::Hide) => broken_at(clauses::clause8(image, b, l.line), 8, b, i),
        Ok(Op::Unhide) => broken_at(clauses::clause9(image, b, l.line), 9, b, i),
        Ok(Op::Nil | Op::Parallel | Op::Replication) | Err(UnknownOp) => Ok(()),
    }
}
