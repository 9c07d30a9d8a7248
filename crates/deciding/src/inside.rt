#![tactic(auto)]
// Whether a move inside a box is allowed. Reads only.
// Bounds of indices and counts stand in the clauses: a type for each bound would be taken apart at every use.
ghost use Rattle.std.specs.Prelude.{◌≡◌, ◌≤◌, IfOk};
ghost use Rattle.definitions.specs.Bounded.{◌below◌};
ghost use Rattle.definitions.specs.Limits.{slot_limit};
ghost use Rattle.definitions.specs.Record as words;
ghost use Rattle.definitions.specs.Moves as moves;
ghost use Rattle.definitions.specs.Calls.{outcome_number};
ghost use Rattle.state.specs.Kinds.{kind_number};
ghost use Rattle.lookups.specs.Ready.{kinds_in, box_in};
ghost use Rattle.lookups.specs.Inside.{inside_outcome};
ghost use Rattle.records.specs.Ops.{op_number};
ghost use Rattle.deciding.specs.Numbers.{blocked_in, unless, line_number, turn_number};

use crate::{Blocked, input_to_output};
use lookups::{ReadyBox, ReadyThread};
use records::Op;
use state::kinds::Kind;

// Thread t, where it is there, and at a line of that operation.
#[tactic(auto, using(crate::proofs::Rules::lines))]
fn at_line<'a>(x: &'a ReadyBox<'_>, t: usize, op: Op) -> Result<ReadyThread<'a>, Blocked>
    ensures answer { blocked_in result ≡ line_number (kinds_in x.now.model.now) (box_in x.now.model.now x.now.b) x.now.r.now t (op_number op) }
    ensures thread { IfOk result (λ y. (y.of.now ≡ x.now) × (y.t ≡ t) × (y.line.op ≡ op_number op)) }
{
    let y = x.thread(t).ok_or(Blocked::Nobody)?;
    Blocked::WrongLine.unless(y.line.op == op as u8)?;
    Ok(y)
}

// There is room for a thread.
#[tactic(auto, using(crate::proofs::Rules::room))]
fn thread_room(r: &[u32; 1139]) -> Result<(), Blocked>
    ensures { blocked_in result ≡ unless (words.threads r.now below slot_limit) 19 }
{
    Blocked::Full.unless(state::threads(r) < 16)
}

// A stamp is left.
#[tactic(auto, using(crate::proofs::Rules::room))]
fn stamp_left(r: &[u32; 1139]) -> Result<(), Blocked>
    ensures { blocked_in result ≡ unless (words.stamp r.now below words.stamp_limit) 20 }
{
    Blocked::Spent.unless(state::stamp_left(state::stamp(r)))
}

// Expose: a line, room for a site, and a stamp.
#[tactic(auto, using(crate::proofs::Rules::kinds))]
fn expose(x: &ReadyBox<'_>, t: usize) -> Result<(), Blocked>
    ensures { blocked_in result ≡ outcome_number (moves.expose_move (kinds_in x.now.model.now) (box_in x.now.model.now x.now.b) x.now.r.now t) }
{
    at_line(x, t, Op::Expose)?;
    Blocked::Full.unless(state::sites(x.r) < 16)?;
    stamp_left(x.r)
}

// Hide and unhide: a line of the operation, and a site that is shown (0) or hidden (1): before is the record's word.
#[tactic(auto, using(crate::proofs::Rules::turns))]
fn turn(x: &ReadyBox<'_>, t: usize, op: Op, before: u32) -> Result<(), Blocked>
    requires named { 3 ≤ op_number op }
    ensures { blocked_in result ≡ turn_number (kinds_in x.now.model.now) (box_in x.now.model.now x.now.b) x.now.r.now (op_number op) before t }
{
    let y = at_line(x, t, op)?;
    lookups::site_with(x.r, y.subject(), before).ok_or(Blocked::NoSite)?;
    Ok(())
}

// Intra: two threads of one box. It begins as `crate::inter` does: each is the equation of one definition.
#[tactic(auto, using(crate::proofs::Rules::threads))]
fn intra(x: &ReadyBox<'_>, t: usize, u: usize) -> Result<(), Blocked>
    ensures { blocked_in result ≡ outcome_number (moves.intra_move (kinds_in x.now.model.now) (box_in x.now.model.now x.now.b) x.now.r.now t u) }
{
    let y = x.thread(t).ok_or(Blocked::Nobody)?;
    let z = x.thread(u).ok_or(Blocked::Nobody)?;
    Blocked::WithSelf.unless(t != u)?;
    input_to_output(&y, &z)?;
    Blocked::Channel.unless(y.subject() == z.subject())
}

// A move of a kind; an inter is not made in a box.
#[tactic(auto, using(crate::proofs::Rules::kinds))]
fn of_kind(x: &ReadyBox<'_>, kind: Kind, t: usize, u: usize) -> Result<(), Blocked>
    ensures { blocked_in result ≡ outcome_number (inside_outcome (kinds_in x.now.model.now) (box_in x.now.model.now x.now.b) x.now.r.now (kind_number kind) t u) }
{
    match kind {
        Kind::Drop => {
            at_line(x, t, Op::Nil)?;
            Ok(())
        }
        Kind::Spread => {
            at_line(x, t, Op::Parallel)?;
            thread_room(x.r)
        }
        Kind::New => {
            at_line(x, t, Op::Restriction)?;
            stamp_left(x.r)
        }
        Kind::Copy => {
            at_line(x, t, Op::Replication)?;
            thread_room(x.r)
        }
        Kind::Expose => expose(x, t),
        Kind::Hide => turn(x, t, Op::Hide, 0),
        Kind::Unhide => turn(x, t, Op::Unhide, 1),
        Kind::Intra => intra(x, t, u),
        Kind::Inter => Err(Blocked::Nobody),
    }
}

// A move of kinds 1 to 8, with its kind; others are not made in a box. The kind comes as a number: a Kind would be narrower.
#[tactic(auto, using(crate::proofs::Rules::numbers))]
pub fn allowed(x: &ReadyBox<'_>, kind: u32, t: usize, u: usize) -> Result<Kind, Blocked>
    ensures answer { blocked_in result ≡ outcome_number (inside_outcome (kinds_in x.now.model.now) (box_in x.now.model.now x.now.b) x.now.r.now kind t u) }
    ensures kind { IfOk result (λ k. kind_number k ≡ kind) }
{
    let kind = Kind::try_from(kind)?;
    of_kind(x, kind, t, u)?;
    Ok(kind)
}
