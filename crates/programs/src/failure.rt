// What standard error is told of a file that cannot be read, or of output that cannot be written.
use std::io::{Cursor, Write};
use std::{fmt, io};

// Bytes that are mostly text: what is not UTF-8 is shown as U+FFFD.
#[derive(Drop)]
struct Shown<'a>(&'a [u8]);

impl fmt::Display for Shown<'_> {
    fn fmt<W: fmt::Write>(&self, f: &mut fmt::Formatter<W>) -> fmt::Result {
        for chunk in self.0.utf8_chunks() {
            f.write_str(chunk.valid())?;
            if !chunk.invalid().is_empty() {
                f.write_str("\u{FFFD}")?;
            }
        }
        Ok(())
    }
}

// The system's text for an error, without the number that the library adds in parentheses.
#[derive(Drop)]
struct Reason(io::Error);

impl fmt::Display for Reason {
    fn fmt<W: fmt::Write>(&self, f: &mut fmt::Formatter<W>) -> fmt::Result {
        let e = self.0;
        // Fixed memory, no heap: a Cursor over an array, and no String.
        let mut text = Cursor::new([0u8; 320]);
        let _ = write!(text, "{e}");
        // usize has no From<u64>.
        let n = text.position() as usize;
        let bytes = text.into_inner();
        f.write_str(before_number(text_of(&bytes, n)))
    }
}

// The first n bytes as text: fixed memory, no String.
fn text_of(bytes: &[u8], n: usize) -> &str {
    std::str::from_utf8(&bytes[..n.min(bytes.len())]).unwrap_or("")
}

// An error's text without the number, where it has one.
fn before_number(text: &str) -> &str {
    text.rsplit_once(" (os error ")
        .map_or(text, |(words, _)| words)
}

// A line on standard error: what failed, a colon and the system's text.
pub fn tell<R: Eprint>(rt: &R, what: &[u8], error: io::Error) {
    let what = Shown(what);
    let reason = Reason(error);
    let _ = eprintln!(rt; "{what}: {reason}");
}
