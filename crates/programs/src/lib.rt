#![tactic(auto)]
// What the programs share: files read into buffers, sets of names as text, and the checker on two files.
ghost use Rattle.io.specs.Counts.{IsPrefixLen};

use sets::Ascending;
use std::io::{ErrorKind, Read};
use std::rt::Files;
use std::{fmt, fs, io};

mod failure;

// The length of a model's buffer, one byte more than the largest model has: enough to refuse a file that is too long.
pub const MODEL_BUFFER: usize = 20993;

// The length of an estimate's buffer, one byte more than the largest estimate has.
pub const ESTIMATE_BUFFER: usize = 8705;

// A file that is open for reading. A path may be any bytes, and text would be narrower; the library's paths are text, so one that is not UTF-8
// opens no file.
fn open<R: Files>(rt: &R, path: &[u8]) -> io::Result<R::File> {
    match std::str::from_utf8(path) {
        Ok(text) => fs::open(rt, text),
        Err(_) => Err(io::Error::from(ErrorKind::InvalidFilename)),
    }
}

// How many bytes one read put at the front of the buffer: none at the file's end, and none where the read fails. A file that cannot be read counts
// as empty, so a count and no Result.
fn read_some<F: Read>(file: &mut F, buffer: &mut [u8]) -> usize
    ensures { IsPrefixLen result buffer.new }
{
    file.read(buffer).unwrap_or(0)
}

// How many bytes of a file stand at the front of the buffer once it is full, the file ends or a read fails.
// The library's read_exact does not say how many it read of a file that ends before.
fn read_full<F: Read>(file: &mut F, buffer: &mut [u8]) -> usize
    ensures { IsPrefixLen result buffer.new }
{
    let mut done = 0;
    while done < buffer.len() {
        let n = read_some(file, &mut buffer[done..]);
        if n == 0 {
            break;
        }
        done += n;
    }
    done
}

// How many bytes of a file stand in the buffer, at most its length. A file that cannot be opened or read counts as empty, so a count and no Result;
// a buffer and a count, as the library's `read` has them: fixed memory, no heap.
pub fn load<R: Files>(rt: &R, path: &[u8], buffer: &mut [u8]) -> usize
    ensures { IsPrefixLen result buffer.new }
{
    let Ok(mut file) = open(rt, path) else {
        return 0;
    };
    read_full(&mut file, buffer)
}

// Whether a file is missing or can be read; where it is there and cannot, as a folder cannot, a line on standard error says why.
fn readable<R: Files + Eprint>(rt: &R, path: &[u8]) -> bool {
    let mut file = match open(rt, path) {
        Ok(file) => file,
        Err(e) => {
            let missing = e.kind() == ErrorKind::NotFound;
            if !missing {
                failure::tell(rt, path, e);
            }
            return missing;
        }
    };
    let mut first = [0u8; 1];
    match file.read(&mut first) {
        Ok(_) => true,
        Err(e) => {
            failure::tell(rt, path, e);
            false
        }
    }
}

// A set of names: its members, ascending, in braces with commas between. Nothing is promised of the text: the test programs alone write it, and
// what they write is compared.
#[derive(Clone, Copy)]
pub struct Names(pub u64);

impl fmt::Display for Names {
    fn fmt<W: fmt::Write>(&self, f: &mut fmt::Formatter<W>) -> fmt::Result {
        f.write_str("{")?;
        let mut left = Ascending(self.0);
        if let Some(first) = left.next() {
            write!(f, "{}", first.0)?;
        }
        for n in left {
            write!(f, ",{}", n.0)?;
        }
        f.write_str("}")
    }
}

// Bytes, and a line on standard error where they could not be written.
fn write_answer<R: Print + Eprint>(rt: &R, bytes: &[u8]) {
    if let Err(e) = rt.write_all(bytes) {
        failure::tell(rt, b"standard output", e);
    }
}

// The checker's line for two images.
fn report<R: Print + Eprint>(rt: &R, model: &[u8], estimate: &[u8]) {
    let line = report::line(analysis::check(model, estimate));
    write_answer(rt, line.as_bytes());
}

// The checker on two files. Of a file that is too long one byte past the limit is read, which is enough to refuse it.
fn check_loaded<R: Files + Print + Eprint>(rt: &R, model_path: &[u8], estimate_path: &[u8]) {
    let mut model = [0; MODEL_BUFFER];
    let mut estimate = [0; ESTIMATE_BUFFER];
    let m = load(rt, model_path, &mut model);
    let e = load(rt, estimate_path, &mut estimate);
    report(rt, &model[..m], &estimate[..e]);
}

// The checker on two files: its line goes to standard output. A missing file counts as empty; for one that cannot be read there is no line.
pub fn check_files<R: Files + Print + Eprint>(rt: &R, model_path: &[u8], estimate_path: &[u8]) {
    if readable(rt, model_path) & readable(rt, estimate_path) {
        check_loaded(rt, model_path, estimate_path);
    }
}
