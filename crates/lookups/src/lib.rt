#![tactic(auto)]
// What a thread of a box stands at, and what its names stand for; the site with a held name; types that share one. The image and the
// record are read where they stand.
// Bounds of indices and counts stand in the clauses: a type for each bound would be taken apart at every use.
ghost use Rattle.std.specs.Prelude.{◌≡◌, ◌<◌, ◌≤◌, MatchOption};
ghost use Rattle.std.proofs.Math.Option.{none};
ghost use Rattle.definitions.specs.Limits.{slot_limit, type_limit};
ghost use Rattle.definitions.specs.Image.{name_count, model_of};
ghost use Rattle.definitions.specs.ReadModel.{read_model};
ghost use Rattle.definitions.specs.Record as words;
ghost use Rattle.definitions.specs.Moves as moves;
ghost use Rattle.records.specs.Records.{line_in};
ghost use Rattle.sets.specs.Options.{option_in};
ghost use Rattle.lookups.specs.Ready.{kinds_in, box_in, BoxReady};
ghost use Rattle.lookups.specs.Found.{site_is, type_has, shared_at};

use model::ReadModel;
use records::{Line, NameKind};
use sets::NameNo;
use state::Held;

mod threads;

// The line at which thread t of box b stands. A move that writes the record reads it before, so it has no ReadyBox.
#[tactic(auto, using(crate::proofs::Lookups::lines))]
pub fn thread_line(model: &ReadModel<'_>, b: usize, r: &[u32; 1139], t: usize) -> Line
    requires ready { BoxReady model.now b r.now }
    requires live { t < words.threads r.now }
    ensures { line_in result ≡ moves.thread_line (kinds_in model.now) (box_in model.now b) r.now t }
{
    records::inside::line(
        model.image,
        model.layout.each[b].at as usize,
        state::line(r, t),
    )
}

// A box of a model with its record, which is in order: what the moves inside it are asked of.
#[derive(Clone, Copy)]
pub struct ReadyBox<'a> {
    pub model: &'a ReadModel<'a>,
    pub b: usize,
    pub r: &'a [u32; 1139],
    pub ghost ready: { BoxReady model.now b r.now },
}

impl ReadyBox<'_> {
    // Thread t, with the line at which it stands, where the box has it.
    pub fn thread(&self, t: usize) -> Option<ReadyThread<'_>>
        ensures { MatchOption result (words.threads self.now.r.now ≤ t) (λ y. (t < words.threads self.now.r.now) × (y.of.now ≡ self.now) × (y.t ≡ t) × (line_in y.line ≡ moves.thread_line (kinds_in self.now.model.now) (box_in self.now.model.now self.now.b) self.now.r.now t)) }
    {
        if state::threads(self.r) <= t {
            return None;
        }
        Some(ReadyThread {
            of: self,
            t,
            line: thread_line(self.model, self.b, self.r, t),
        })
    }
}

// A thread of a box, and the line at which it stands, which is read once.
#[derive(Clone, Copy)]
pub struct ReadyThread<'a> {
    pub of: &'a ReadyBox<'a>,
    pub t: usize,
    pub line: Line,
    pub ghost live: { t < words.threads of.now.r.now },
    pub ghost stands: { line_in line ≡ moves.thread_line (kinds_in of.now.model.now) (box_in of.now.model.now of.now.b) of.now.r.now t },
}

// What name n stands for in thread t: a free name holds itself, any other is bound. Asks of the model only that it is read.
#[tactic(auto, using(crate::proofs::Lookups::values))]
pub fn value(model: &[u8], r: &[u32; 1139], t: usize, n: NameNo) -> Held
    requires read { read_model model.now ≡ none }
    requires slot { t < slot_limit }
    requires listed { n.0 < name_count model.now }
    ensures { result.0 ≡ moves.value_in (model_of model.now).kinds (words.thread r.now t) n.0 }
{
    if records::inside::kind(model, n) == NameKind::Free as u64 {
        state::stamped(n, 0)
    } else {
        state::binding(r, t, n)
    }
}

// Site i has v as its subject, and is shown (0) or hidden (1): f is a number, since it is a word of the record.
#[tactic(auto, using(crate::proofs::Lookups::finds))]
fn site_is(r: &[u32; 1139], i: usize, v: Held, f: u32) -> bool
    requires { i < slot_limit }
    ensures { result ≡ site_is r.now v.0 f i }
{
    (state::subject(r, i) == v) & (state::flag(r, i) == f)
}

// The site of that subject and that word. A site is found by its held name.
pub fn site_with(r: &[u32; 1139], v: Held, f: u32) -> Option<usize>
    requires { words.sites r.now ≤ slot_limit }
    ensures { option_in result ≡ moves.site_with r.now v.0 f }
{
    (0..state::sites(r)).find(|i| site_is(r, *i, v, f))
}

// The type of site i has v: all its words are looked at, with no branch, by their number, at which `state::type_word` reads one.
#[tactic(auto, using(crate::proofs::Lookups::types))]
fn type_has(r: &[u32; 1139], i: usize, v: Held) -> bool
    requires { i < slot_limit }
    ensures { result ≡ type_has (words.site r.now i) v.0 }
{
    let mut found = false;
    for j in 0..8 {
        found |= v == state::type_word(r, i, j);
    }
    found
}

// A site is a record and a place in it: a struct of the two would be taken apart at each word.

// Word j of the type of site i is a held name, which the type of site k of another record has.
#[tactic(auto, using(crate::proofs::Lookups::types))]
fn shared_at(r: &[u32; 1139], i: usize, s: &[u32; 1139], k: usize, j: usize) -> bool
    requires first { i < slot_limit }
    requires second { k < slot_limit }
    requires word { j < type_limit }
    ensures { result ≡ shared_at (words.site r.now i) (words.site s.now k) j }
{
    let v = state::type_word(r, i, j);
    if v.0 == 0 {
        return false;
    }
    type_has(s, k, v)
}

// The types of site i and of site k of another record share a held name.
pub fn types_share(r: &[u32; 1139], i: usize, s: &[u32; 1139], k: usize) -> bool
    requires first { i < slot_limit }
    requires second { k < slot_limit }
    ensures { result ≡ moves.types_share (words.site r.now i) (words.site s.now k) }
{
    (0..8).any(|j| shared_at(r, i, s, k, j))
}
