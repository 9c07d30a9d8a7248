#![tactic(auto)]
// A record against the paper's rules: a site (6), a line by itself (7), in its tree (8), and where its names reach (9).
ghost use Rattle.std.specs.Prelude.{◌≡◌, not};
ghost use Rattle.definitions.specs.Bounded.{◌and◌, ◌implies◌};
ghost use Rattle.definitions.specs.Sets as names;
ghost use Rattle.records.specs.Records.{site_in, line_in};
ghost use Rattle.record_rules.specs.Rules.{shape_fit, names_fit, bound_fit, expose_fit, DecidesSite, DecidesLine, DecidesChild, DecidesTree, DecidesReach};

use crate::line_sets::{LineSet, has_line};
use records::names::{binder, type_fits, used};
use records::{Kinds, Line, Op, Site};

pub mod line_sets;

// free: the free names; used: the subjects of the sites before.
pub fn site_fits(s: Site, free: u64, used: u64) -> bool
    ensures { DecidesSite (site_in s) free used result }
{
    let fresh = sets::contains(free, s.subject) & !sets::contains(used, s.subject);
    fresh & (s.flag <= 1) & (s.spare == 0) & type_fits(free, s.subject, s.names)
}

// A field passes a test where it is used, and is else zero.
#[tactic(auto, using(crate::proofs::RuleLaws::line_laws))]
fn field_fits(used: bool, ok: bool, zero: bool) -> bool
    ensures { result ≡ ((used implies ok) and (not used implies zero)) }
{
    if used { ok } else { zero }
}

// A known operation; the spare byte, and the children that it does not use, are zero.
fn shape_fits(l: Line) -> bool
    ensures { result ≡ shape_fit (line_in l) }
{
    let known = (l.op <= Op::Unhide as u8) & (l.spare == 0);
    let first = (l.op != Op::Nil as u8) | (l.child1 == 0);
    let second = (l.op == Op::Parallel as u8) | (l.child2 == 0);
    known & (first & second)
}

// Each name that the operation uses is listed, and else zero.
#[tactic(auto, using(crate::proofs::RuleLaws::line_laws))]
fn names_fit(l: Line, all: u64) -> bool
    ensures { result ≡ names_fit (names.has all) (line_in l) }
{
    let first = field_fits(
        Op::Restriction as u8 <= l.op,
        sets::contains(all, l.name1),
        l.name1.0 == 0,
    );
    let second_used = (l.op == Op::Output as u8) | (l.op == Op::Input as u8);
    let second = field_fits(second_used, sets::contains(all, l.name2), l.name2.0 == 0);
    first & second
}

// A restriction's name and an input's second are of the kinds bound there.
fn bound_fits(l: Line, restricted: u64, received: u64) -> bool
    ensures { result ≡ bound_fit (names.has restricted) (names.has received) (line_in l) }
{
    let one = (l.op != Op::Restriction as u8) | sets::contains(restricted, l.name1);
    one & ((l.op != Op::Input as u8) | sets::contains(received, l.name2))
}

// An expose's name is of its kind, and its type fits; any other line has no type.
#[tactic(auto, using(crate::proofs::RuleLaws::line_laws))]
fn expose_fits(l: Line, all: u64, exposed: u64) -> bool
    ensures { result ≡ expose_fit (names.has all) (names.has exposed) (line_in l) }
{
    if l.op == Op::Expose as u8 {
        sets::contains(exposed, l.name1) & type_fits(all, l.name1, l.names)
    } else {
        l.names == 0
    }
}

#[tactic(auto, using(crate::proofs::RuleLaws::line_laws))]
pub fn line_fits(l: Line, kinds: Kinds) -> bool
    ensures { DecidesLine (line_in l) kinds.listed kinds.restricted kinds.received kinds.exposed result }
{
    let fields = shape_fits(l) & names_fit(l, kinds.listed);
    let bound = bound_fits(l, kinds.restricted, kinds.received);
    fields & bound & expose_fits(l, kinds.listed, kinds.exposed)
}

// Line c of n as a child of line i; seen: the children of the lines before.
#[tactic(auto, using(crate::proofs::RuleLaws::child_laws))]
fn child_fits(i: usize, c: usize, n: usize, seen: LineSet) -> bool
    ensures { DecidesChild i c n seen result }
{
    if (i < c) & (c < n) {
        !has_line(seen, c)
    } else {
        false
    }
}

// seen: the children of the lines before; all: those of all n lines. A child that the operation does not use is not looked at.
#[tactic(auto, using(crate::proofs::RuleLaws::tree_laws))]
pub fn tree_fits(l: Line, i: usize, n: usize, seen: LineSet, all: LineSet) -> bool
    ensures { DecidesTree (line_in l) i n seen all result }
{
    let child = (i == 0) | has_line(all, i);
    if !child {
        return false;
    }
    if l.op == Op::Nil as u8 {
        return true;
    }
    if !child_fits(i, l.child1, n, seen) {
        return false;
    }
    if l.op == Op::Parallel as u8 {
        child_fits(i, l.child2, n, seen) & (l.child1 != l.child2)
    } else {
        true
    }
}

// free_or_unlisted: the names that need no binding; above: those bound strictly above the line; bound: those bound by the lines before.
#[tactic(auto, using(crate::proofs::RuleLaws::reach_laws))]
pub fn reach_fits(l: Line, free_or_unlisted: u64, above: u64, bound: u64) -> bool
    ensures { DecidesReach (line_in l) free_or_unlisted above bound result }
{
    let reached = sets::is_subset(used(l), sets::union(free_or_unlisted, above));
    reached & !sets::intersects(binder(l), bound)
}
