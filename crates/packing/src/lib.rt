#![tactic(auto)]
// Answers as one number: a tag, a number and two places; a broken clause with the name that is missing. Tags and numbers are those of the C
// interface (include/): 1 a broken clause, 2 and 3 a refused model and estimate, 4 yes, 5 no, 6 a refused call, 7 no room.
ghost use Rattle.std.specs.Prelude.{◌≡◌};
ghost use Rattle.refusals.specs.Answers.{answer_in};
ghost use Rattle.analysis.specs.Answers.{not_accepted_in, verdict_in, reply_in};
ghost use Rattle.packing.specs.Packed.{pack, pack_named, pack_verdict, pack_reply, call_tag, pack_call, pack_part};

use analysis::{NoReply, NotAccepted};
use refusals::{Refusal, Rule};
use sets::NameNo;

// A tag, a number, and the low 16 digits of each of two places. A place is a usize, from which u64 has no From.
pub fn packed(tag: u8, n: u8, a: usize, b: usize) -> u64
    ensures { result ≡ pack tag n a b }
{
    u64::from(tag)
        + 0x100 * u64::from(n)
        + 0x1_0000 * ((a % 65536) as u64)
        + 0x1_0000_0000 * ((b % 65536) as u64)
}

// The name that is missing besides.
fn packed_named(tag: u8, n: u8, a: usize, b: usize, name: NameNo) -> u64
    ensures { result ≡ pack_named tag n a b name.0 }
{
    packed(tag, n, a, b) + 0x1_0000_0000_0000 * u64::from(name.0)
}

// An answer of the checker that is not accepted. The two refusals differ in the image's tag: one line each.
#[tactic(auto, unfolding(crate::specs::Packed::pack_verdict))]
fn of_not_accepted(e: NotAccepted) -> u64
    ensures { result ≡ pack_verdict (not_accepted_in e) }
{
    match e {
        NotAccepted::Breaks(x) => packed_named(1, x.clause, x.boxno, x.place, x.name),
        NotAccepted::RefusedModel(r) => packed(2, r.number, r.place, r.second),
        NotAccepted::RefusedEstimate(r) => packed(3, r.number, r.place, r.second),
    }
}

#[tactic(auto, unfolding(crate::specs::Packed::pack_verdict))]
pub fn of_verdict(v: Result<(), NotAccepted>) -> u64
    ensures { result ≡ pack_verdict (verdict_in v) }
{
    match v {
        Ok(()) => 0,
        Err(e) => of_not_accepted(e),
    }
}

#[tactic(auto, unfolding(crate::specs::Packed::pack_reply))]
pub fn of_reply(a: Result<bool, NoReply>) -> u64
    ensures { result ≡ pack_reply (reply_in a) }
{
    match a {
        Ok(true) => 4,
        Ok(false) => 5,
        Err(NoReply::NotAccepted(e)) => of_not_accepted(e),
        Err(NoReply::Nobody) => packed(6, 12, 0, 0),
    }
}

// From 10 on, `Rule::Room`, the call is refused, and not the model.
#[tactic(auto, using(crate::proofs::Tests::decided))]
fn tag(n: u8) -> u8
    ensures { result ≡ call_tag n }
{
    if n < Rule::Room as u8 { 2 } else { 6 }
}

#[tactic(auto, unfolding(crate::specs::Packed::pack_call))]
pub fn of_call(a: Result<(), Refusal>) -> u64
    ensures { result ≡ pack_call (answer_in a) }
{
    match a {
        Ok(()) => 0,
        Err(r) => packed(tag(r.number), r.number, r.place, r.second),
    }
}

// Where a refused block of n bytes stands, by the verdict. No block has 0 bytes.
#[tactic(auto, using(crate::proofs::Tests::decided), unfolding(crate::specs::Packed::pack_part))]
pub fn of_part(v: Result<(), NotAccepted>, n: usize) -> u64
    ensures { result ≡ pack_part (verdict_in v) n }
{
    if n == 0 {
        return packed(2, 0, 0, 0);
    }
    match v {
        Ok(()) | Err(NotAccepted::Breaks(_)) => packed(2, 0, 0, 0),
        Err(NotAccepted::RefusedModel(r)) => packed(2, r.number, r.place, n),
        Err(NotAccepted::RefusedEstimate(r)) => packed(3, r.number, r.place, n),
    }
}
