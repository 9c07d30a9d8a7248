#![tactic(auto)]
// The checking program: reads model.blk and estimate.blk in the folder it is run in, and writes one line.
use std::env::{Env, FillError};

// Whether an argument stands beside the program's own name.
fn has_argument<R: Env>(rt: &R) -> bool {
    let mut first = [0u8; 1];
    match rt.arg(1, &mut first) {
        Ok(_) | Err(FillError::TooLong) => true,
        Err(FillError::NotPresent) => false,
    }
}

fn main(rt: HostRuntime) {
    if has_argument(&rt) {
        let _ = eprintln!(rt;
            "betacheck takes no arguments: run it in the folder with model.blk and estimate.blk"
        );
        return;
    }
    programs::check_files(&rt, b"model.blk", b"estimate.blk");
}
