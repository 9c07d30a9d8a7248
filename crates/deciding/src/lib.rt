#![tactic(auto)]
// Whether a move is allowed. Reads only.
// Bounds of indices and counts stand in the clauses: a type for each bound would be taken apart at every use.
ghost use Rattle.std.specs.Prelude.{◌≡◌, IfOk};
ghost use Rattle.definitions.specs.Bounded.{◌and◌, ◌is◌};
ghost use Rattle.definitions.specs.Answer.{refusal};
ghost use Rattle.definitions.specs.Model.{output, input};
ghost use Rattle.definitions.specs.Image.{model_of};
ghost use Rattle.definitions.specs.Record as words;
ghost use Rattle.definitions.specs.Moves as moves;
ghost use Rattle.definitions.specs.Calls.{outcome_number};
ghost use Rattle.refusals.specs.Answers.{refusal_in};
ghost use Rattle.state.specs.Kinds.{kind_number};
ghost use Rattle.state.specs.Moves.{turn_in};
ghost use Rattle.lookups.specs.Ready.{kinds_in, box_in, Ready};
ghost use Rattle.lookups.specs.Threads.{subject_of, sent_of};
ghost use Rattle.deciding.specs.Numbers.{blocked_number, blocked_in, unless, is_private, site_tests, channels_number, inter_number};

use lookups::{ReadyBox, ReadyThread};
use model::ReadModel;
use records::{NameKind, Op};
use refusals::Refusal;
use state::kinds::{Kind, UnknownKind};
use state::moves::Turn;

pub mod inside;

// Why a move is refused, by the paper's numbers.
#[derive(Clone, Copy, Debug, PartialEq, Eq)]
pub enum Blocked {
    // No such kind of move, box or thread.
    Nobody = 12,
    // Intra with one thread twice, inter with one box twice.
    WithSelf = 13,
    // The thread is not at the line that the move needs.
    WrongLine = 14,
    // Intra: the channels differ.
    Channel = 15,
    // Inter: a channel is no shown site of its own box. Hide: no shown site. Unhide: no hidden one.
    NoSite = 16,
    // Inter: the types share no held name.
    Unfit = 17,
    // Inter: the name that is sent is of kind 1.
    Private = 18,
    // 16 threads or 16 sites already.
    Full = 19,
    // The box's stamp is the largest.
    Spent = 20,
}

impl Blocked {
    // This refusal, unless a test passes.
    fn unless(self, ok: bool) -> Result<(), Blocked>
        ensures { blocked_in result ≡ unless ok (blocked_number self) }
    {
        if ok { Ok(()) } else { Err(self) }
    }
}

// A number of no kind of move.
impl From<UnknownKind> for Blocked {
    ghost from_gives = { λ k n. blocked_number n ≡ 12 };

    fn from(_: UnknownKind) -> Blocked {
        Blocked::Nobody
    }
}

// A refused move, as a refusal: it has no places.
impl From<Blocked> for Refusal {
    ghost from_gives = { λ n r. refusal_in r ≡ refusal (blocked_number n) 0 0 };

    fn from(n: Blocked) -> Refusal {
        Refusal {
            number: n as u8,
            place: 0,
            second: 0,
        }
    }
}

// The paper's number of an answer, and 0 where the move is allowed.
// A byte, as the answers that C lends have it.
pub fn number(answer: Result<(), Blocked>) -> u8
    ensures { result ≡ blocked_in answer }
{
    match answer {
        Ok(()) => 0,
        Err(n) => n as u8,
    }
}

// A communication of an inter: a thread at an input, and a thread at an output.
#[derive(Clone, Copy)]
struct Communication<'a> {
    receiver: ReadyThread<'a>,
    sender: ReadyThread<'a>,
    ghost receives: { receiver.line.op ≡ input },
    ghost sends: { sender.line.op ≡ output },
}

// Intra and inter: the first thread is at an input, and the second at an output.
#[tactic(auto, using(crate::proofs::Rules::meets))]
fn input_to_output(x: &ReadyThread<'_>, y: &ReadyThread<'_>) -> Result<(), Blocked>
    ensures answer { blocked_in result ≡ unless (x.now.line.op is input and y.now.line.op is output) 14 }
    ensures ends { IfOk result (λ u. (x.now.line.op ≡ input) × (y.now.line.op ≡ output)) }
{
    Blocked::WrongLine.unless((x.line.op == Op::Input as u8) & (y.line.op == Op::Output as u8))
}

// In place: as calls, they have both boxes and threads written to the stack first, also where the move is refused before.
impl Communication<'_> {
    // Inter: the name that is sent is of kind 1.
    #[inline(always)]
    #[tactic(auto, using(crate::proofs::Rules::sends))]
    fn private(&self) -> bool
        ensures { result ≡ is_private (kinds_in self.now.sender.of.now.model.now) (sent_of self.now.sender) }
    {
        let model = self.sender.of.model.image;
        records::inside::kind(model, state::number(self.sender.sent()))
            == NameKind::Restricted as u64
    }

    // Inter: the channels stand for shown sites of their own boxes, whose types share a held name.
    #[inline(always)]
    #[tactic(auto, using(crate::proofs::Rules::ends))]
    fn sites(&self) -> Result<(), Blocked>
        ensures { blocked_in result ≡ outcome_number (site_tests self.now.receiver.of.now.r.now self.now.sender.of.now.r.now (subject_of self.now.receiver) (subject_of self.now.sender)) }
    {
        let r = self.receiver.of.r;
        let s = self.sender.of.r;
        let i = lookups::site_with(r, self.receiver.subject(), 0).ok_or(Blocked::NoSite)?;
        let j = lookups::site_with(s, self.sender.subject(), 0).ok_or(Blocked::NoSite)?;
        Blocked::Unfit.unless(lookups::types_share(r, i, s, j))
    }

    // Inter: the kind of the name that is sent, and then the sites.
    #[inline(always)]
    #[tactic(auto, using(crate::proofs::Rules::ends))]
    fn channels(&self) -> Result<(), Blocked>
        ensures { blocked_in result ≡ channels_number (kinds_in self.now.sender.of.now.model.now) self.now.receiver.of.now.r.now self.now.sender.of.now.r.now (subject_of self.now.receiver) (subject_of self.now.sender) (sent_of self.now.sender) }
    {
        Blocked::Private.unless(!self.private())?;
        self.sites()
    }
}

// Inter between two boxes. It begins as intra does, with 12, 13 and 14, and then asks other things: each is the equation of one definition.
#[tactic(auto, using(crate::proofs::Rules::inters))]
fn inter(x: &ReadyBox<'_>, t: usize, y: &ReadyBox<'_>, u: usize) -> Result<(), Blocked>
    requires one_model { y.now.model.now.image.now ≡ x.now.model.now.image.now }
    ensures { blocked_in result ≡ inter_number (kinds_in x.now.model.now) (box_in x.now.model.now x.now.b) x.now.r.now (box_in x.now.model.now y.now.b) y.now.r.now x.now.b t y.now.b u }
{
    let v = x.thread(t).ok_or(Blocked::Nobody)?;
    let w = y.thread(u).ok_or(Blocked::Nobody)?;
    Blocked::WithSelf.unless(x.b != y.b)?;
    input_to_output(&v, &w)?;
    let c = Communication {
        receiver: v,
        sender: w,
    };
    c.channels()
}

// A move, in a state that obeys the state rules: its kind, where it is allowed. Moves write the state, so that it obeys them is a clause.
#[tactic(auto, using(crate::proofs::Rules::states))]
pub fn allowed(model: &ReadModel<'_>, state: &[u32], m: Turn) -> Result<Kind, Blocked>
    requires { Ready model.now state.now }
    ensures answer { blocked_in result ≡ outcome_number (moves.act (model_of model.now.image.now) state.now (turn_in m)) }
    ensures kind { IfOk result (λ k. kind_number k ≡ m.kind) }
{
    let n = model.layout.boxes;
    Blocked::Nobody.unless(m.b < n)?;
    let x = ReadyBox {
        model,
        b: m.b,
        r: state::record(state, m.b),
    };
    if m.kind != Kind::Inter as u32 {
        return inside::allowed(&x, m.kind, m.t, m.u);
    }
    Blocked::Nobody.unless(m.c < n)?;
    let y = ReadyBox {
        model,
        b: m.c,
        r: state::record(state, m.c),
    };
    inter(&x, m.t, &y, m.u)?;
    Ok(Kind::Inter)
}
