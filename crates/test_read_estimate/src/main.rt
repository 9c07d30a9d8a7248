#![tactic(auto)]
// Reads six pairs of a model and an estimate, 0.model and 0.estimate to 5.model and 5.estimate, and writes each estimate's sets, or the
// line of its refusal.
// Bounds of indices and counts stand in the clauses: a type for each bound would be taken apart at every use.
ghost use Rattle.std.specs.Prelude.{◌+◌, ◌*◌, ◌<◌, ◌≤◌, length};

use programs::{ESTIMATE_BUFFER, MODEL_BUFFER, Names};
use refusals::Refusal;
use sets::NameNo;
use std::rt::Files;

// An estimate's image, and of how many names and boxes it is written.
#[derive(Clone, Copy)]
struct Shown<'a> {
    image: &'a [u8],
    names: u8,
    boxes: usize,
    ghost there: { 512 * (1 + 2 * boxes) ≤ length image.now },
    ghost few: { names ≤ 60 },
    ghost most: { boxes ≤ 8 },
}

impl<'a> Shown<'a> {
    fn rhos<R: Print>(&self, rt: &R) {
        for n in 0..self.names {
            let rho = Names(estimate::rho(self.image, NameNo(n)));
            let _ = println!(rt; "rho {n} {rho}");
        }
    }

    fn epss<R: Print>(&self, rt: &R, b: usize)
        requires { b < self.now.boxes }
    {
        for n in 0..self.names {
            let eps = Names(estimate::eps(self.image, b, NameNo(n)));
            let _ = println!(rt; "eps {b} {n} {eps}");
        }
    }

    // As epss: a closure for the set would have to carry what it asks of a name.
    fn kaps<R: Print>(&self, rt: &R, b: usize)
        requires { b < self.now.boxes }
    {
        for n in 0..self.names {
            let kap = Names(estimate::kap(self.image, b, NameNo(n)));
            let _ = println!(rt; "kap {b} {n} {kap}");
        }
    }

    fn one_box<R: Print>(&self, rt: &R, b: usize)
        requires { b < self.now.boxes }
    {
        let shown = Names(estimate::shown(self.image, b));
        let hidden = Names(estimate::hidden(self.image, b));
        let _ = println!(rt; "shown {b} {shown}");
        let _ = println!(rt; "hidden {b} {hidden}");
        self.epss(rt, b);
        self.kaps(rt, b);
    }

    fn all<R: Print>(&self, rt: &R) {
        self.rhos(rt);
        for b in 0..self.boxes {
            self.one_box(rt, b);
        }
    }
}

// The line of a refusal; an estimate's has no second place, which is written as 0.
fn refused<R: Print>(rt: &R, image: &str, r: Refusal) {
    let _ = println!(rt; "refused {image} {} {} {}", r.number, r.place, r.second);
}

fn show<R: Print>(rt: &R, image: &[u8], names: usize, boxes: usize) {
    match estimate::read(image, names, boxes) {
        Ok(()) => {
            if names <= 60 && boxes <= 8 && 512 * (1 + 2 * boxes) <= image.len() {
                // u8 has no From<usize>.
                let names = names as u8;
                let shown = Shown {
                    image,
                    names,
                    boxes,
                };
                shown.all(rt);
            }
        }
        Err(r) => refused(rt, "estimate", r),
    }
}

fn pair<R: Print>(rt: &R, model: &[u8], image: &[u8]) {
    match model::read(model) {
        Ok(m) => show(rt, image, m.layout.names, m.layout.boxes),
        Err(r) => refused(rt, "model", r),
    }
}

fn one<R: Files + Print>(rt: &R, digit: u8) {
    let mut model = *b"0.model";
    let mut image = *b"0.estimate";
    model[0] = digit;
    image[0] = digit;
    let mut first = [0; MODEL_BUFFER];
    let mut second = [0; ESTIMATE_BUFFER];
    let m = programs::load(rt, &model, &mut first);
    let e = programs::load(rt, &image, &mut second);
    pair(rt, &first[..m], &second[..e]);
}

fn main(rt: HostRuntime) {
    for digit in b"012345" {
        one(&rt, *digit);
    }
}
