#![tactic(auto, using(crate::proofs::Records::words))]
// Held names, and the box records of a state: their words, read where they stand. A box record is an array of its 1,139 words, and
// its readers and edits are functions: methods would want a type of its own around words that C lends. Where a word of a site or a thread stands is
// written in what reads or writes it.
// A word becomes a count, a line or a name's number by `as`: usize and u8 have no From<u32>.
// Bounds of indices and counts stand in the clauses: a type for each bound would be taken apart at every use.
ghost use Rattle.std.specs.Prelude.{◌≡◌, ◌+◌, ◌*◌, ◌<◌, ◌≤◌, ◌++◌, length, take, drop};
ghost use Rattle.std.specs.Borrow.{sem, Lends, Array, u32};
ghost use Rattle.definitions.specs.Bounded.{◌below◌, ◌upto◌};
ghost use Rattle.definitions.specs.Limits.{name_limit, slot_limit, type_limit};
ghost use Rattle.definitions.specs.Record as records;

use sets::NameNo;

pub mod edits;
pub mod kinds;
pub mod moves;

// The paper's "held name": a name's number with a stamp, and 0 for none, as the lent words have it. A name's number is another type.
#[derive(Clone, Copy, Debug, PartialEq, Eq)]
pub struct Held(pub u32);

// The largest stamp.
const STAMP_LIMIT: u32 = 67108863;

// Stamp s is at most the largest.
pub fn stamp_fits(s: u32) -> bool
    ensures { result ≡ (s upto records.stamp_limit) }
{
    s <= STAMP_LIMIT
}

// A stamp is left after s.
pub fn stamp_left(s: u32) -> bool
    ensures { result ≡ (s below records.stamp_limit) }
{
    s < STAMP_LIMIT
}

// Name n, with a stamp.
pub fn stamped(n: NameNo, stamp: u32) -> Held
    requires listed { n.0 < name_limit }
    requires in_range { stamp ≤ records.stamp_limit }
    ensures { result.0 ≡ records.held n.0 stamp }
{
    Held(1 + u32::from(n.0) + 64 * stamp)
}

// The number of a held name.
pub fn number(h: Held) -> NameNo
    ensures { result.0 ≡ records.held_number h.0 }
{
    NameNo((h.0.saturating_sub(1) % 64) as u8)
}

// The record of box b.
pub fn record(state: &[u32], b: usize) -> &[u32; 1139]
    requires { records.record_length * (b + 1) ≤ length state.now }
    ensures { result.now ≡ records.record_of state.now b }
{
    state[1139 * b..].first_chunk::<1139>().unwrap()
}

// The record with which the words of a part of a state begin. A caller splits the state before its box: what is lent is followed to a
// whole slice, and not to a part of it that the call itself takes, nor through `unwrap`.
pub fn first_record(words: &mut [u32]) -> &mut [u32; 1139]
    requires { records.record_length ≤ length words.old }
    ensures* writes_back { sem 𝓛 (Lends (Array u32 0) (Array u32 0) words.entry result (λ ws. ws ++ drop records.record_length words.old)) }
    ensures value { result.now ≡ take records.record_length words.old }
{
    let Some(r) = words.first_chunk_mut::<1139>() else {
        unreachable!()
    };
    r
}

pub fn stamp(r: &[u32; 1139]) -> u32
    ensures { result ≡ records.stamp r.now }
{
    r[0]
}

pub fn threads(r: &[u32; 1139]) -> usize
    ensures { result ≡ records.threads r.now }
{
    r[1] as usize
}

pub fn sites(r: &[u32; 1139]) -> usize
    ensures { result ≡ records.sites r.now }
{
    r[2] as usize
}

// The line at which thread t stands.
pub fn line(r: &[u32; 1139], t: usize) -> usize
    requires { t < slot_limit }
    ensures { result ≡ records.line (records.thread r.now t) }
{
    r[163 + 61 * t] as usize
}

// What name n is bound to in thread t.
pub fn binding(r: &[u32; 1139], t: usize, n: NameNo) -> Held
    requires slot { t < slot_limit }
    requires listed { n.0 < name_limit }
    ensures { result.0 ≡ records.binding (records.thread r.now t) n.0 }
{
    Held(r[163 + 61 * t + (1 + usize::from(n.0))])
}

// The subject of site i.
pub fn subject(r: &[u32; 1139], i: usize) -> Held
    requires { i < slot_limit }
    ensures { result.0 ≡ records.subject (records.site r.now i) }
{
    Held(r[3 + 10 * i])
}

// Site i is shown (0) or hidden (1): a word of the record, which may be any number in a state that is lent.
pub fn flag(r: &[u32; 1139], i: usize) -> u32
    requires { i < slot_limit }
    ensures { result ≡ records.flag (records.site r.now i) }
{
    r[3 + 10 * i + 1]
}

// Word j of the type of site i.
pub fn type_word(r: &[u32; 1139], i: usize, j: usize) -> Held
    requires slot { i < slot_limit }
    requires place { j < type_limit }
    ensures { result.0 ≡ records.type_word (records.site r.now i) j }
{
    Held(r[3 + 10 * i + (2 + j)])
}
