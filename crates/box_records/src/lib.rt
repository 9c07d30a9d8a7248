#![tactic(auto)]
// The state rules of one box record, by tables: the limits of the held names in order, and the names bound strictly above each line.
// Tests of held names are joined by `&`, with no branch and no early exit; so are the sites of a record and the words of a type, by their
// indices, since each is read by functions of the record at an index.
// A set of names is a word, since words are joined with & and |; that it has no digit past the names is a clause.
// Bounds of indices and counts stand in the clauses: a type for each bound would be taken apart at every use.
ghost use Rattle.std.specs.Prelude.{◌≡◌, ◌<◌, ◌≤◌, length};
ghost use Rattle.definitions.specs.Limits.{slot_limit};
ghost use Rattle.definitions.specs.Record as words;
ghost use Rattle.sets.specs.Names.{NamesOnly};
ghost use Rattle.box_records.specs.Rules.{clear_between, count_below, has_binding, new_subject, NamesAbove, Covering, StandBelow};
ghost use Rattle.box_records.specs.Rules.{DecidesFollows, DecidesType, DecidesSite, DecidesSites, DecidesSiteSlots};
ghost use Rattle.box_records.specs.Rules.{DecidesBindings, DecidesThread, DecidesThreads, DecidesThreadSlots, DecidesRecord};

use held_limits::{Limit, held_fits};
use sets::Ascending;
use state::Held;

// What the records of a box are tested by: the limits of held names, the names that a site may offer (of kind 0 or 3), how many lines the
// box has, and the names bound strictly above each line at which a thread stands.
#[derive(Clone, Copy)]
pub struct Rules<'a> {
    pub limits: &'a [Limit; 64],
    pub subjects: u64,
    // A count beside an array: in fixed memory `up` has a word for each of 124 lines, and the box has `lines` of them.
    pub lines: usize,
    pub up: &'a [u64; 124],
    pub ghost names: { NamesAbove lines up.now },
}

// The words of a list are zero: joined, and tested once.
#[tactic(auto, using(crate::proofs::WordLaws::words))]
fn all_clear(words: &[u32]) -> bool
    ensures { result ≡ clear_between words.now 0 (length words.now) }
{
    let mut w = 0;
    for x in words {
        w |= *x;
    }
    w == 0
}

// The words of a list from one place up to another are zero. There are none where the first place lies above the other, so the places are
// parameters and no slice.
#[tactic(auto, using(crate::proofs::WordLaws::words))]
pub fn run_clear(r: &[u32], from: usize, to: usize) -> bool
    requires { to ≤ length r.now }
    ensures { result ≡ clear_between r.now from to }
{
    from >= to || all_clear(&r[from..to])
}

// The same, in runs of 64 words, since the compiler unrolls a loop of one length.
#[tactic(auto, using(crate::proofs::WordLaws::words))]
fn is_clear(r: &[u32; 1139], from: usize, to: usize) -> bool
    requires start { from ≤ to }
    requires end { to ≤ words.record_length }
    ensures { result ≡ clear_between r.now from to }
{
    let (runs, rest) = r[from..to].as_chunks::<64>();
    runs.iter().all(|run| all_clear(run)) && all_clear(rest)
}

// v may stand behind `before` in a type.
#[tactic(auto, using(crate::proofs::SiteLaws::site_rules))]
fn follows(limits: &[Limit; 64], before: Held, v: Held) -> bool
    ensures { DecidesFollows limits.now before.0 v.0 result }
{
    (v.0 == 0) | (held_fits(limits, v) & (before.0 != 0) & (before.0 < v.0))
}

// The type of site i.
#[tactic(auto, using(crate::proofs::SiteLaws::site_rules))]
fn type_fits(limits: &[Limit; 64], r: &[u32; 1139], i: usize) -> bool
    requires { i < slot_limit }
    ensures { DecidesType limits.now (words.site r.now i) result }
{
    let first = state::type_word(r, i, 0);
    let mut before = first;
    let mut ok = true;
    for j in 0..7 {
        let v = state::type_word(r, i, j + 1);
        ok &= follows(limits, before, v);
        before = v;
    }
    held_fits(limits, first) & ok
}

// Site i.
#[tactic(auto, using(crate::proofs::SiteLaws::site_rules))]
fn site_fits(rules: &Rules<'_>, r: &[u32; 1139], i: usize) -> bool
    requires { i < slot_limit }
    ensures { DecidesSite rules.now.limits.now rules.now.subjects (words.site r.now i) result }
{
    let s = state::subject(r, i);
    held_fits(rules.limits, s)
        & sets::contains(rules.subjects, state::number(s))
        & (state::flag(r, i) <= 1)
        & type_fits(rules.limits, r, i)
}

// The subject of site i is that of no site before it.
#[tactic(auto, using(crate::proofs::SiteLaws::site_rules))]
fn new_subject(r: &[u32; 1139], i: usize) -> bool
    requires { i < slot_limit }
    ensures { result ≡ new_subject r.now i }
{
    let s = state::subject(r, i);
    let mut ok = true;
    for j in 0..i {
        ok &= state::subject(r, j) != s;
    }
    ok
}

// The first n sites.
#[tactic(auto, using(crate::proofs::SiteLaws::site_rules))]
fn sites_fit(rules: &Rules<'_>, r: &[u32; 1139], n: usize) -> bool
    requires { n ≤ slot_limit }
    ensures { DecidesSites rules.now.limits.now rules.now.subjects r.now n result }
{
    let mut ok = true;
    for i in 0..n {
        ok &= site_fits(rules, r, i) & new_subject(r, i);
    }
    ok
}

// The sites of a record, and the words of those that it lacks.
#[tactic(auto, using(crate::proofs::SiteLaws::site_rules))]
fn site_slots_fit(rules: &Rules<'_>, r: &[u32; 1139]) -> bool
    ensures { DecidesSiteSlots rules.now.limits.now rules.now.subjects r.now result }
{
    let n = state::sites(r);
    n <= 16 && sites_fit(rules, r, n) && is_clear(r, 3 + 10 * n, 163)
}

// How many names have a binding in thread t.
#[tactic(auto, using(crate::proofs::ThreadLaws::thread_rules))]
fn bindings(r: &[u32; 1139], t: usize) -> u32
    requires { t < slot_limit }
    ensures { result ≡ count_below 60 (has_binding (words.thread r.now t)) }
{
    let at = 164 + 61 * t;
    let mut c = 0;
    for v in &r[at..at + 60] {
        c += u32::from(*v != 0);
    }
    c
}

// Each name of a set has a binding in thread t that is in order.
#[tactic(auto, using(crate::proofs::ThreadLaws::thread_rules))]
fn bindings_fit(limits: &[Limit; 64], r: &[u32; 1139], t: usize, above: u64) -> bool
    requires thread { t < slot_limit }
    requires names { NamesOnly above }
    ensures { DecidesBindings limits.now (words.thread r.now t) above result }
{
    let mut ok = true;
    for n in Ascending(above) {
        ok &= held_fits(limits, state::binding(r, t, n));
    }
    ok
}

// Thread t of a box. As many bindings as names bound strictly above its line, each in order.
#[tactic(auto, using(crate::proofs::ThreadLaws::thread_rules))]
fn thread_fits(rules: &Rules<'_>, r: &[u32; 1139], t: usize) -> bool
    requires { t < slot_limit }
    ensures { DecidesThread rules.now.limits.now rules.now.up.now rules.now.lines (words.thread r.now t) result }
{
    let l = state::line(r, t);
    if rules.lines <= l {
        return false;
    }
    let above = rules.up[l];
    bindings(r, t) == sets::count(above) && bindings_fit(rules.limits, r, t, above)
}

// The first n threads.
fn threads_fit(rules: &Rules<'_>, r: &[u32; 1139], n: usize) -> bool
    requires { n ≤ slot_limit }
    ensures { DecidesThreads rules.now.limits.now rules.now.up.now rules.now.lines r.now n result }
{
    (0..n).all(|t| thread_fits(rules, r, t))
}

// So many lines that the line of thread t, where it is one of `lines`, is one of them too.
#[tactic(auto, using(crate::proofs::ThreadLaws::stand_rules))]
fn covering(r: &[u32; 1139], lines: usize, used: usize, t: usize) -> usize
    requires { t < slot_limit }
    ensures { used ≤ lines → Covering lines used (words.line (words.thread r.now t)) result }
{
    let l = state::line(r, t);
    if l < lines { used.max(l + 1) } else { used }
}

// So many lines that each thread which stands at one of `lines` stands at one of them.
pub fn lines_used(r: &[u32; 1139], lines: usize) -> usize
    ensures { StandBelow r.now lines slot_limit result }
{
    (0..16).fold(0, |used, t| covering(r, lines, used, t))
}

// The threads of a record, and the words of those that it lacks.
#[tactic(auto, using(crate::proofs::ThreadLaws::thread_rules))]
fn thread_slots_fit(rules: &Rules<'_>, r: &[u32; 1139]) -> bool
    ensures { DecidesThreadSlots rules.now.limits.now rules.now.up.now rules.now.lines r.now result }
{
    let n = state::threads(r);
    n <= 16 && threads_fit(rules, r, n) && is_clear(r, 163 + 61 * n, 1139)
}

// A record whose last stamp is at most the limit.
#[tactic(auto, using(crate::proofs::RecordLaws::record_rules))]
pub fn record_fits(rules: &Rules<'_>, r: &[u32; 1139]) -> bool
    requires stamp { words.stamp r.now ≤ words.stamp_limit }
    ensures { DecidesRecord rules.now.limits.now rules.now.up.now rules.now.lines rules.now.subjects r.now result }
{
    site_slots_fit(rules, r) && thread_slots_fit(rules, r)
}
