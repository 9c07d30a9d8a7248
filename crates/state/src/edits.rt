#![tactic(auto, using(crate::proofs::Stores::stores))]
// Edits of a box record, each an edit of the definitions. A count becomes a word by `as`: u32 has no From<usize>.
// Bounds of indices and counts stand in the clauses: a type for each bound would be taken apart at every use.
ghost use Rattle.std.specs.Prelude.{◌≡◌, ◌+◌, ◌<◌, ◌≤◌};
ghost use Rattle.definitions.specs.Limits.{name_limit, slot_limit};
ghost use Rattle.definitions.specs.Slots.{part, put};
ghost use Rattle.definitions.specs.Record as records;
ghost use Rattle.state.specs.Edits.{DeadThreads, inserted};

use crate::Held;
use sets::NameNo;

pub fn set_stamp(r: &mut [u32; 1139], s: u32)
    ensures { r.new ≡ records.set_stamp r.old s }
{
    r[0] = s;
}

// Thread t goes on to a line.
pub fn set_line(r: &mut [u32; 1139], t: usize, l: u32)
    requires { t < slot_limit }
    ensures { r.new ≡ records.put_thread r.old t (records.goto (records.thread r.old t) l) }
{
    r[163 + 61 * t] = l;
}

// Name n is bound in thread t.
pub fn bind(r: &mut [u32; 1139], t: usize, n: NameNo, v: Held)
    requires slot { t < slot_limit }
    requires listed { n.0 < name_limit }
    ensures { r.new ≡ records.put_thread r.old t (records.bind (records.thread r.old t) n.0 v.0) }
{
    r[163 + 61 * t + (1 + usize::from(n.0))] = v.0;
}

// Site i is shown (0) or hidden (1): a number, since it is the record's word.
pub fn set_flag(r: &mut [u32; 1139], i: usize, f: u32)
    requires { i < slot_limit }
    ensures { r.new ≡ records.put_site r.old i (records.set_flag (records.site r.old i) f) }
{
    r[3 + 10 * i + 1] = f;
}

// One thread more: a copy of thread t, at a line.
pub fn append_thread(r: &mut [u32; 1139], t: usize, l: u32)
    requires live { t < records.threads r.old }
    requires room { records.threads r.old < slot_limit }
    ensures { r.new ≡ records.push_thread r.old (records.goto (records.thread r.old t) l) }
{
    let n = crate::threads(r);
    let from = 163 + 61 * t;
    let to = 163 + 61 * n;
    r.copy_within(from..from + 61, to);
    r[to] = l;
    r[1] = n as u32 + 1;
}

// Thread t is removed: later ones move down, and the freed last one is zeroed.
pub fn remove_thread(r: &mut [u32; 1139], t: usize)
    requires dead { DeadThreads r.old }
    requires live { t < records.threads r.old }
    ensures { r.new ≡ records.take_thread r.old t }
{
    let last = crate::threads(r) - 1;
    let at = 163 + 61 * t;
    let end = 163 + 61 * last;
    r.copy_within(at + 61..end + 61, at);
    r[end..end + 61].fill(0);
    r[1] = last as u32;
}

// A held name, put into the eight words of a type from a place on. By hand: the contract asks no order of the words, which a search of a sorted
// slice would want, and they stay in place (fixed memory).
#[tactic(auto, using(crate::proofs::Inserts::inserts))]
pub fn insert_name(r: &mut [u32; 1139], at: usize, v: Held)
    requires { at + 8 ≤ records.record_length }
    ensures { r.new ≡ put r.old at (inserted v.0 (part r.old at 8)) }
{
    let mut x = v.0;
    for word in &mut r[at..at + 8] {
        let y = *word;
        if y == x {
            return;
        }
        if y == 0 {
            *word = x;
            return;
        }
        *word = x.min(y);
        x = x.max(y);
    }
}
