// A short text that is put together: bytes and numbers in decimal. That there is room is a clause: see the head of lib.rt. No `write!`: the
// library says what it wrote where it succeeds, and not that it succeeds where there is room, and a line is written for every verdict.
ghost use Rattle.std.specs.Prelude.{◌≡◌, ◌≤◌, ◌+◌, ◌++◌, ◌∷◌, [], length};
ghost use Rattle.definitions.specs.Program.{decimal, decimal_in};

use std::marker::Model;

// At most 96 bytes, of which the first len are the text: fixed memory, no heap.
#[derive(Clone, Copy)]
pub struct Text {
    bytes: [u8; 96],
    len: usize,
}

impl Model for Text {
    ghost use Rattle.std.specs.Prelude.{List, ℕ, ◌≡◌, ◌≤◌, ◌-◌, ◌++◌, length, take, drop, replicate};
    ghost use Rattle.std.proofs.Common.{arith, ap, sym, take-append-drop, length-take-le, ◌∙◌};

    ghost Value = { List ℕ };

    ghost view = { λ t. take t.len t.bytes };

    // The bytes that are no part of the text are zero, so that the text gives the fields back.
    ghost invariant = { λ t. (t.len ≤ 96) × (length t.bytes ≡ 96) × (drop t.len t.bytes ≡ replicate (96 - t.len) 0) };

    ghost inverse = { λ s. record { bytes = s ++ replicate (96 - length s) 0; len = length s } };

    ghost inverse_ok = { λ t h i. record {
      bytes = (ap (λ n. take t.len t.bytes ++ replicate (96 - n) 0) (length-take-le t.len t.bytes (omega (arith, h.0, h.1))) ∙ ap (λ r. take t.len t.bytes ++ r) (sym h.2) ∙ take-append-drop t.len t.bytes) i;
      len = length-take-le t.len t.bytes (omega (arith, h.0, h.1)) i;
    } };
}

impl Text {
    pub fn new() -> Text
        ensures { result ≡ [] }
    {
        Text {
            bytes: [0; 96],
            len: 0,
        }
    }

    pub fn as_bytes(&self) -> &[u8]
        ensures { result.now ≡ self.now }
    {
        &self.bytes[..self.len]
    }

    pub fn push(&mut self, b: u8)
        requires { length self.old + 1 ≤ 96 }
        ensures { self.new ≡ self.old ++ b ∷ [] }
    {
        self.bytes[self.len] = b;
        self.len += 1;
    }

    pub fn push_all(&mut self, s: &[u8])
        requires { length self.old + length s.now ≤ 96 }
        ensures { self.new ≡ self.old ++ s.now }
    {
        let end = self.len + s.len();
        self.bytes[self.len..end].copy_from_slice(s);
        self.len = end;
    }

    // A number in decimal.
    #[tactic(auto, using(crate::proofs::Digits::digits))]
    pub fn push_decimal(&mut self, n: u64)
        requires { length self.old + length (decimal n) ≤ 96 }
        ensures text { self.new ≡ self.old ++ decimal n }
        ensures size { length self.new ≤ length self.old + 20 }
    {
        let mut buffer = itoa::Buffer::new();
        self.push_all(buffer.format(n).as_bytes());
    }

    // A number in decimal, of at most so many digits: its last ones, where it has more. A digit is below 10: u8 has no From<u64>.
    #[tactic(auto, using(crate::proofs::Digits::digits_in))]
    pub fn push_number(&mut self, n: u64, most: usize)
        requires { length self.old + most ≤ 96 }
        ensures text { self.new ≡ self.old ++ decimal_in most n }
        ensures size { length self.new ≤ length self.old + most }
    {
        if most == 0 {
            return;
        }
        if n < 10 {
            self.push(b'0' + n as u8);
            return;
        }
        self.push_number(n / 10, most - 1);
        self.push(b'0' + (n % 10) as u8);
    }
}
