// Sets of names, put together by a test, in machine code with no branch; what a line binds and uses.
ghost use Rattle.std.specs.Prelude.{◌≡◌};
ghost use Rattle.definitions.specs.Sets.{has};
ghost use Rattle.definitions.specs.Model.{binds};
ghost use Rattle.definitions.specs.ReadModel.{uses, type_fits};
ghost use Rattle.records.specs.Records.{line_in};
ghost use Rattle.records.specs.NameSets.{SetOf, insert_if, set_if, lacks};

use crate::{Line, Op};
use sets::NameNo;

// s, with name n put in where a test is met.
#[tactic(auto, using(crate::proofs::NameSetLaws::name_sets))]
pub fn insert_if(s: u64, n: NameNo, yes: bool) -> u64
    ensures { SetOf result (insert_if s yes n.0) }
{
    if yes { sets::insert(s, n) } else { s }
}

// s where a test is met, and else no name.
#[tactic(auto, using(crate::proofs::NameSetLaws::name_sets))]
fn set_if(yes: bool, s: u64) -> u64
    ensures { SetOf result (set_if yes s) }
{
    if yes { s } else { 0 }
}

// The names that s lacks.
#[tactic(auto, using(crate::proofs::NameSetLaws::name_sets))]
pub fn complement(s: u64) -> u64
    ensures { SetOf result (lacks s) }
{
    !s
}

// The names that a line binds.
#[tactic(auto, using(crate::proofs::NameSetLaws::name_sets))]
pub fn binder(l: Line) -> u64
    ensures { SetOf result (binds (line_in l)) }
{
    let first = (l.op == Op::Restriction as u8) | (l.op == Op::Expose as u8);
    insert_if(
        insert_if(0, l.name1, first),
        l.name2,
        l.op == Op::Input as u8,
    )
}

// The names that a line uses.
#[tactic(auto, using(crate::proofs::NameSetLaws::name_sets))]
pub fn used(l: Line) -> u64
    ensures { SetOf result (uses (line_in l)) }
{
    let channel = (l.op == Op::Output as u8)
        | (l.op == Op::Input as u8)
        | (l.op == Op::Hide as u8)
        | (l.op == Op::Unhide as u8);
    let named = insert_if(
        insert_if(0, l.name1, channel),
        l.name2,
        l.op == Op::Output as u8,
    );
    sets::union(named, set_if(l.op == Op::Expose as u8, l.names))
}

// A type has 1 to 8 names, all of a set, and not the name that it is the type of.
#[tactic(auto, using(crate::proofs::NameSetLaws::name_sets))]
pub fn type_fits(ok: u64, subject: NameNo, names: u64) -> bool
    ensures { result ≡ type_fits (has ok) subject.0 names }
{
    let n = sets::count(names);
    let within = sets::is_subset(names, ok);
    (1 <= n) & (n <= 8) & within & !sets::contains(names, subject)
}
