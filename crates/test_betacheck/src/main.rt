#![tactic(auto)]
// The checking program on ten pairs of files, 0.model and 0.estimate to 9.model and 9.estimate: a line for each.
use std::rt::Files;

fn one<R: Files + Print + Eprint>(rt: &R, digit: u8) {
    let mut model = *b"0.model";
    let mut estimate = *b"0.estimate";
    model[0] = digit;
    estimate[0] = digit;
    programs::check_files(rt, &model, &estimate);
}

fn main(rt: HostRuntime) {
    for digit in b"0123456789" {
        one(&rt, *digit);
    }
}
