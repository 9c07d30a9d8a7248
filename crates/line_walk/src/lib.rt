#![tactic(auto)]
// One walk over a box's lines that may only say "all right": a line by itself, in its tree, and where its names reach. Wrong digits are joined.
// Bounds of indices and counts stand in the clauses: a type for each bound would be taken apart at every use.
ghost use Rattle.std.specs.Prelude.{◌≡◌, ◌<◌, ◌≤◌, replicate};
ghost use Rattle.line_table.specs.Table.{op_table};
ghost use Rattle.line_walk.specs.Told.{OwnTold, ChildrenTold, Stepped, Fresh, Next, LinesTold};

use line_table::{Kinds, Part, at, bound_names, typed, used_names, wrong_digits};
use records::Lines;
use std::mem::replace;

// The words of a line stand in registers: a struct of them would be taken apart at once.

// Wrong digits of a line by itself, of its type, of where its names reach, of what is bound twice, and of its mark; v: what stands at its place.
fn own_wrong(t: &[u64; 144], all: u64, rest: u64, w: u64, names: u64, v: u64, seen: u64) -> u64
    ensures { OwnTold t.now all rest w names v seen result }
{
    let line = wrong_digits(t, w);
    let expose = typed(all, rest, w, names, v);
    let reach = used_names(t, w) & !v;
    let twice = seen & bound_names(t, w);
    let visit = !v & 0x8000_0000_0000_0000;
    line | expose | reach | twice | visit
}

// The children of a line are handed what is bound above them; wrong digits where they were marked before.
fn children_wrong(t: &[u64; 144], w: u64, here: u64, up: &mut [u64; 128]) -> u64
    ensures { ChildrenTold t.now w here up.old result up.new }
{
    // A place is the low seven digits of a child, no byte of the word: usize has no From<u64>.
    let first = replace(&mut up[(w / 0x1_0000_0000 % 128) as usize], here);
    let second = replace(&mut up[(w / 0x1_0000_0000_0000 % 128) as usize], here);
    (first & at(t, Part::ChildFirst, w)) | (second & at(t, Part::ChildSecond, w))
}

// Line i, of the words w and names.
fn step(
    t: &[u64; 144],
    all: u64,
    rest: u64,
    w: u64,
    names: u64,
    i: usize,
    seen: u64,
    up: &mut [u64; 128],
) -> u64
    requires { i < 128 }
    ensures { Stepped t.now all rest w names i up.old seen result up.new }
{
    let v = up[i];
    let own = own_wrong(t, all, rest, w, names, v, seen);
    let here = bound_names(t, w) | v;
    let children = children_wrong(t, w, here, up);
    own | children
}

// Where a line stands, and how many lines its block has from it on, with it.
#[derive(Clone, Copy)]
pub struct Place {
    pub at: usize,
    pub left: usize,
}

// The place of the next line: a block of 31 lines has 16 bytes besides.
fn next(p: Place) -> Place
    requires few { p.at < 0x100000000 }
    requires some { 0 < p.left }
    ensures { Next p.at p.left result.at result.left }
{
    if p.left == 1 {
        Place {
            at: p.at + 32,
            left: 31,
        }
    } else {
        Place {
            at: p.at + 16,
            left: p.left - 1,
        }
    }
}

// What a walk over a box's records finds: wrong digits, and the names that the boxes up to its end bind, or have as subjects. No Option: wrong
// digits are joined over all boxes, with no branch.
#[derive(Clone, Copy)]
pub struct Walked {
    pub bad: u64,
    pub names: u64,
}

// The places of the n lines but the first lose their marks. A mark, the top digit, says that a place is a child already, the first line's or no
// line's: names are below 60, so the digit is free.
fn unmark(up: &mut [u64; 128], n: usize)
    requires marked { up.old ≡ replicate 128 0x8000000000000000 }
    requires few { n ≤ 124 }
    ensures { Fresh n up.new }
{
    up[..n].fill(0);
    up[0] = 0x8000_0000_0000_0000;
}

// The lines of a box before which others bind a set. Where no wrong digit is found every line fits. up has a word for each of 128 places: fixed
// memory.
#[tactic(auto, using(crate::proofs::Walks::walks))]
pub fn walk_lines(lines: Lines<'_>, t: &[u64; 144], kinds: Kinds, start: u64) -> Walked
    requires block { lines.k < 100 }
    requires table { t.now ≡ op_table kinds.listed kinds.restricted kinds.received kinds.exposed kinds.free }
    ensures { LinesTold lines.entry.image.now lines.entry.k lines.entry.n kinds.listed kinds.restricted kinds.received kinds.exposed kinds.free start result.bad result.names }
{
    let mut up = [0x8000_0000_0000_0000u64; 128];
    unmark(&mut up, lines.n);
    let mut bad: u64 = 0;
    let mut seen = start;
    let mut p = Place {
        at: 512 * (lines.k + 1) + 8,
        left: 31,
    };
    for i in 0..lines.n {
        let w = words::word(lines.image, p.at);
        let names = words::word(lines.image, p.at + 8);
        bad |= step(t, kinds.listed, !kinds.free, w, names, i, seen, &mut up);
        seen |= bound_names(t, w);
        p = next(p);
    }
    Walked { bad, names: seen }
}
