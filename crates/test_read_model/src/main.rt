#![tactic(auto)]
// Reads the model images of its folder and writes each: its names, boxes, sites and lines, or the line of its refusal.
// Bounds of indices and counts stand in the clauses: a type for each bound would be taken apart at every use.
ghost use Rattle.std.specs.Prelude.{◌<◌, ◌≤◌};

use model::ReadModel;
use programs::{MODEL_BUFFER, Names};
use records::{Line, Lines, Site};
use sets::NameNo;
use std::rt::Files;

fn show_site<R: Print>(rt: &R, b: usize, i: usize, s: Site) {
    let _ = println!(rt;
        "site {b} {i} {} {} {}",
        s.subject.0,
        s.flag,
        Names(s.names)
    );
}

fn show_line<R: Print>(rt: &R, b: usize, i: usize, l: Line) {
    let _ = println!(rt;
        "line {b} {i} {} {} {} {} {} {}",
        l.op,
        l.name1.0,
        l.name2.0,
        l.child1,
        l.child2,
        Names(l.names)
    );
}

// The first n sites of a block.
fn show_sites<R: Print>(rt: &R, b: usize, block: &[u8; 512], n: usize)
    requires { n ≤ 31 }
{
    for i in 0..n {
        show_site(rt, b, i, records::inside::site(block, i));
    }
}

fn show_lines<R: Print>(rt: &R, b: usize, lines: Lines<'_>) {
    for i in 0..lines.n {
        show_line(rt, b, i, lines.line(i));
    }
}

#[tactic(auto, using(crate::proofs::Shown::shown))]
fn show_box<R: Print>(rt: &R, m: &ReadModel<'_>, b: usize)
    requires { b < m.now.layout.boxes }
{
    let place = m.layout.each[b];
    let _ = println!(rt; "box {b} sites {} lines {}", place.sites, place.lines);
    let block = records::inside::block(m.image, place.at as usize);
    show_sites(rt, b, block, place.sites as usize);
    let lines = Lines {
        image: m.image,
        k: place.at as usize,
        n: place.lines as usize,
    };
    show_lines(rt, b, lines);
}

fn show_boxes<R: Print>(rt: &R, m: &ReadModel<'_>) {
    let _ = println!(rt; "boxes {}", m.layout.boxes);
    for b in 0..m.layout.boxes {
        show_box(rt, m, b);
    }
}

#[tactic(auto, using(crate::proofs::Shown::shown))]
fn show_names<R: Print>(rt: &R, m: &ReadModel<'_>) {
    let _ = println!(rt; "names {}", m.layout.names);
    for n in 0..m.layout.names {
        // u8 has no From<usize>.
        let kind = records::inside::kind(m.image, NameNo(n as u8));
        let _ = println!(rt; "name {n} {kind}");
    }
}

fn show<R: Print>(rt: &R, image: &[u8]) {
    match model::read(image) {
        Ok(m) => {
            show_names(rt, &m);
            show_boxes(rt, &m);
        }
        Err(x) => {
            let _ = println!(rt; "refused model {} {} {}", x.number, x.place, x.second);
        }
    }
}

fn file<R: Files + Print>(rt: &R, path: &str) {
    let mut buffer = [0; MODEL_BUFFER];
    let n = programs::load(rt, path.as_bytes(), &mut buffer);
    let _ = println!(rt; "{path}");
    show(rt, &buffer[..n]);
}

fn main(rt: HostRuntime) {
    file(&rt, "accepted.blk");
    file(&rt, "length.blk");
    file(&rt, "missing.blk");
    file(&rt, "check.blk");
    file(&rt, "heading.blk");
    file(&rt, "left_over.blk");
    file(&rt, "count.blk");
    file(&rt, "stray.blk");
    file(&rt, "site.blk");
    file(&rt, "line.blk");
    file(&rt, "tree.blk");
    file(&rt, "reach.blk");
    file(&rt, "full.blk");
}
