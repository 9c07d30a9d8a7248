#![tactic(auto, using(crate::proofs::LimitLaws::limits))]
// The held names that are in order, by a table made once for a state: for each name's number the least and the largest.
// A word becomes an entry, and an entry a name's number, by `as`: usize has no From<u32>, u8 none of usize.
// Bounds of indices and counts stand in the clauses: a type for each bound would be taken apart at every use.
ghost use Rattle.std.specs.Prelude.{◌≡◌, ◌*◌, ◌<◌, ◌≤◌, length};
ghost use Rattle.definitions.specs.Bounded.{all_below};
ghost use Rattle.definitions.specs.Limits.{name_limit, box_limit};
ghost use Rattle.definitions.specs.Record as records;
ghost use Rattle.held_limits.specs.Limits.{entry_of, in_limits, least_held, largest_held, last_fits, StampsFit, LimitsFor};

use layouts::Layout;
use sets::NameNo;
use state::Held;

// The least and the largest held name of one number that is in order.
#[derive(Clone, Copy)]
pub struct Limit {
    pub low: u32,
    pub high: u32,
}

// No held name is in order.
pub const NO_LIMIT: Limit = Limit { low: 1, high: 0 };

// The entry of a held name in the limits.
fn entry(v: Held) -> usize
    ensures { result ≡ entry_of v.0 }
{
    v.0.wrapping_sub(1) as usize % 64
}

// Held name v lies within its limits: two comparisons on one entry, with no branch.
pub fn held_fits(limits: &[Limit; 64], v: Held) -> bool
    ensures { result ≡ in_limits limits.now v.0 }
{
    let limit = limits[entry(v)];
    (limit.low <= v.0) & (v.0 <= limit.high)
}

// The state is a slice, as C lends it; its length is a clause.
fn last_stamp(state: &[u32], b: usize) -> u32
    requires long { length state.now ≡ records.state_length }
    requires there { b < box_limit }
    ensures { result ≡ records.last_stamps state.now b }
{
    state::stamp(state::record(state, b))
}

// The last stamps of so many boxes are at most the limit: joined with no branch. By a box's number, at which its stamp is read.
pub fn stamps_fit(state: &[u32], boxes: usize) -> bool
    requires long { length state.now ≡ records.state_length }
    requires few { boxes ≤ box_limit }
    ensures { result ≡ all_below boxes (last_fits state.now) }
{
    let mut ok = true;
    for b in 0..boxes {
        ok &= state::stamp_fits(last_stamp(state, b));
    }
    ok
}

// The limits of number n: a free name has stamp 0; a made one has stamp 1 at least, and at most the last stamp of the box that binds it. Where
// none is in order the largest is 0, not None: a limit is a number, and no held name is at most 0.
fn limit_of(layout: &Layout, state: &[u32], n: NameNo) -> Limit
    requires stamps { StampsFit state.now layout.now.boxes }
    requires name { n.0 < name_limit }
    ensures low { result.low ≡ least_held layout.now.kinds.free n.0 }
    ensures high { result.high ≡ largest_held layout.now (records.last_stamps state.now) n.0 }
{
    if sets::contains(layout.kinds.free, n) {
        let v = state::stamped(n, 0).0;
        return Limit { low: v, high: v };
    }
    let low = state::stamped(n, 1).0;
    if sets::contains(layout.kinds.received, n) {
        return Limit { low, high: 0 };
    }
    match layout.owner_of(n) {
        Some(b) => Limit {
            low,
            high: state::stamped(n, last_stamp(state, b)).0,
        },
        None => Limit { low, high: 0 },
    }
}

// The limits of the names of a model, for a state whose last stamps are at most the limit; an entry that is no name's admits nothing.
// No struct joins state and layout: who has both apart would tie its layout to the model's by one clause more.
pub fn set_limits(limits: &mut [Limit; 64], layout: &Layout, state: &[u32])
    requires stamps { StampsFit state.now layout.now.boxes }
    requires few { layout.now.names ≤ name_limit }
    ensures { LimitsFor layout.now state.now limits.new }
{
    limits.fill(NO_LIMIT);
    for (n, limit) in limits[..layout.names].iter_mut().enumerate() {
        *limit = limit_of(layout, state, NameNo(n as u8));
    }
}
