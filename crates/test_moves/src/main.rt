#![tactic(auto)]
// Makes lists of moves, each from a start, and writes a line for each move: its five numbers and its answer, then for each box its number,
// its last stamp and its threads, each with its line and what it has bound; then the same for one run over the list, from a second start.
// The lists for model K are those of the examples. The model limits.blk has one box, !new n.0: 16 threads and a copy. In stamps.blk new makes name
// 59 and expose name 58, and new.txt and expose.txt do both: past 16 bits, and up to the last stamp; new.txt also from one above it.
// Bounds of indices and counts stand in the clauses: a type for each bound would be taken apart at every use.
ghost use Rattle.std.specs.Prelude.{◌<◌};
ghost use Rattle.definitions.specs.Limits.{slot_limit};

use programs::MODEL_BUFFER;
use reduction::Move;
use refusals::Refusal;
use sets::NameNo;
use state::Held;
use std::rt::Files;

// The length of the buffer of a list of moves, ten bytes each: one move more than the 32 that a list may have, enough to leave out one that is
// too long.
const LIST_BUFFER: usize = 330;

// A name, where it is bound: its number, and the held name's number and stamp.
fn show_bound<R: Print>(rt: &R, n: NameNo, held: Held) {
    if held.0 != 0 {
        // The stamp of a held name, for which state has no function.
        let stamp = (held.0 - 1) / 64;
        let _ = print!(rt; " name {} {} {stamp}", n.0, state::number(held).0);
    }
}

// Thread t of a box record.
fn show_thread<R: Print>(rt: &R, r: &[u32; 1139], t: usize)
    requires { t < slot_limit }
{
    let _ = print!(rt; " line {}", state::line(r, t));
    for n in 0..60 {
        let name = NameNo(n);
        show_bound(rt, name, state::binding(r, t, name));
    }
}

// The threads of a box record.
fn show_threads<R: Print>(rt: &R, r: &[u32; 1139]) {
    for t in 0..state::threads(r).min(16) {
        show_thread(rt, r, t);
    }
}

fn show_box<R: Print>(rt: &R, b: usize, r: &[u32; 1139]) {
    let _ = print!(rt; " box {b} {}", state::stamp(r));
    show_threads(rt, r);
}

// A call's answer: 0, or the refusal's number.
fn show_answer<R: Print>(rt: &R, answer: Result<(), Refusal>) {
    let number = match answer {
        Ok(()) => 0,
        Err(x) => x.number,
    };
    let _ = print!(rt; " answer {number}");
}

// A model whose moves are made and shown, and how many boxes it has.
#[derive(Drop)]
struct Shown<'a, R> {
    rt: &'a R,
    image: &'a [u8],
    boxes: usize,
}

impl<R: Print> Shown<'_, R> {
    // The first boxes of a state, and the end of the line.
    fn boxes(&self, state: &[u32]) {
        for b in 0..self.boxes.min(state.len() / 1139) {
            show_box(self.rt, b, state::record(state, b));
        }
        let _ = println!(self.rt);
    }

    fn step(&self, state: &mut [u32], m: Move) {
        let answer = reduction::step(self.image, state, m);
        let _ = print!(self.rt;
            "move {} {} {} {} {}",
            m.kind, m.boxno, m.thread, m.boxno2, m.thread2
        );
        show_answer(self.rt, answer);
        self.boxes(state);
    }

    // Each move of a list of numbers, five a move, by a step call of its own.
    fn steps(&self, state: &mut [u32], numbers: &[u32]) {
        for n in numbers.as_chunks::<5>().0 {
            self.step(state, Move::from(*n));
        }
    }

    // A start, after which box 0 gets that last stamp.
    fn begin(&self, state: &mut [u32], stamp: u32) {
        let answer = start::start(self.image, state);
        if let Some(first) = state.first_mut() {
            *first = stamp;
        }
        let _ = print!(self.rt; "start");
        show_answer(self.rt, answer);
        self.boxes(state);
    }

    // The answers of one run over the list.
    fn whole(&self, state: &mut [u32], numbers: &[u32], answers: &mut [u8]) {
        let answer = runs::run_numbers(self.image, state, numbers, answers);
        let _ = print!(self.rt; "run");
        show_answer(self.rt, answer);
        let _ = print!(self.rt; " answers");
        for answer in &*answers {
            let _ = print!(self.rt; " {answer}");
        }
        self.boxes(state);
    }

    // A list, by steps and by a run, each from a start.
    fn play(&self, stamp: u32, state: &mut [u32], numbers: &[u32], answers: &mut [u8]) {
        self.begin(state, stamp);
        self.steps(state, numbers);
        self.begin(state, stamp);
        self.whole(state, numbers, answers);
    }
}

// A byte below the digit 0 counts as 0, and one above the digit 9 by its distance from 0.
fn digit(text: u8) -> u32 {
    u32::from(text.saturating_sub(b'0'))
}

// The numbers of a list of moves: one digit each, with a space or a line end after each.
fn read_numbers(text: &[u8], numbers: &mut [u32]) {
    for (place, pair) in numbers.iter_mut().zip(text.as_chunks::<2>().0) {
        *place = digit(pair[0]);
    }
}

// A list of at most 32 moves, ten bytes each.
fn play_text<R: Print>(rt: &R, image: &[u8], text: &[u8], stamp: u32) {
    let count = text.len() / 10;
    if count > 32 {
        return;
    }
    let mut numbers = [0; 160];
    let mut answers = [0; 32];
    let mut state = [0; 9112];
    read_numbers(text, &mut numbers);
    // A model that is refused with 6 to 9 has its blocks in order, and so a count of boxes: they are shown too.
    let boxes = block_order::read(image).map_or(0, |right| layouts::frame_of(right).boxes);
    let shown = Shown { rt, image, boxes };
    let all = 5 * count;
    shown.play(stamp, &mut state, &numbers[..all], &mut answers[..count]);
}

fn list<R: Files + Print>(rt: &R, model_path: &str, moves_path: &str, stamp: u32) {
    let mut image = [0; MODEL_BUFFER];
    let mut text = [0; LIST_BUFFER];
    let m = programs::load(rt, model_path.as_bytes(), &mut image);
    let n = programs::load(rt, moves_path.as_bytes(), &mut text);
    let _ = println!(rt; "{model_path} {moves_path}");
    play_text(rt, &image[..m], &text[..n], stamp);
}

fn k<R: Files + Print>(rt: &R, moves_path: &str) {
    list(rt, "k.blk", moves_path, 0);
}

fn main(rt: HostRuntime) {
    k(&rt, "intra.txt");
    k(&rt, "inter.txt");
    k(&rt, "refused.txt");
    list(&rt, "limits.blk", "threads.txt", 0);
    list(&rt, "stamps.blk", "new.txt", 65535);
    list(&rt, "stamps.blk", "expose.txt", 65535);
    list(&rt, "stamps.blk", "new.txt", 67108862);
    list(&rt, "stamps.blk", "expose.txt", 67108862);
    list(&rt, "stamps.blk", "new.txt", 67108864);
    list(&rt, "no.blk", "intra.txt", 0);
}
