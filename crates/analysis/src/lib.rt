#![tactic(auto)]
// The checker. No call of this file asks anything of its arguments: any bytes, any box.
ghost use Rattle.std.specs.Prelude.{◌≡◌, IfOk};
ghost use Rattle.definitions.specs.Clauses as clauses;
ghost use Rattle.definitions.specs.ShutOff as shut;
ghost use Rattle.record_clauses.specs.Found.{broken_in};
ghost use Rattle.analysis.specs.Answers.{not_accepted_in, no_reply_in, verdict_in, reply_in};
ghost use Rattle.analysis.specs.Places.{RefusedStands};

use estimate::Estimate;
use first_broken::Both;
use record_clauses::Broken;
use refusals::Refusal;

pub mod parts;

// Why an estimate is not accepted: the model's refusal, else its own, else the first broken clause.
#[derive(Clone, Copy, Debug, PartialEq, Eq)]
pub enum NotAccepted {
    RefusedModel(Refusal),
    RefusedEstimate(Refusal),
    Breaks(Broken),
}

// Why the question has neither yes nor no: the checker's answer, or there is no such box.
#[derive(Clone, Copy, Debug, PartialEq, Eq)]
pub enum NoReply {
    NotAccepted(NotAccepted),
    Nobody,
}

// A broken clause, as why an estimate is not accepted.
impl From<Broken> for NotAccepted {
    ghost from_gives = { λ x e. not_accepted_in e ≡ clauses.breaks (broken_in x) };

    fn from(x: Broken) -> NotAccepted {
        NotAccepted::Breaks(x)
    }
}

// Why an estimate is not accepted, as why there is no reply.
impl From<NotAccepted> for NoReply {
    ghost from_gives = { λ e r. no_reply_in r ≡ shut.not_accepted (not_accepted_in e) };

    fn from(e: NotAccepted) -> NoReply {
        NoReply::NotAccepted(e)
    }
}

// Both images, where neither is refused. No clause is tried. In place in its callers: what a call answers is moved by memcpy where it is so long.
#[tactic(auto, using(crate::proofs::Replies::verdicts))]
#[inline(always)]
fn both_read<'m, 'e>(model: &'m [u8], estimate: &'e [u8]) -> Result<Both<'m, 'e>, NotAccepted>
    ensures verdict { verdict_in result ≡ clauses.read_both model.now estimate.now }
    ensures model { IfOk result (λ b. b.model.image.now ≡ model.now) }
    ensures estimate { IfOk result (λ b. b.estimate.image.now ≡ estimate.now) }
{
    let model = model::read(model).map_err(NotAccepted::RefusedModel)?;
    let boxes = model.layout.boxes;
    estimate::read(estimate, model.layout.names, boxes).map_err(NotAccepted::RefusedEstimate)?;
    Ok(Both {
        model: model.by_fields(),
        estimate: Estimate {
            image: estimate,
            boxes,
        },
    })
}

// Both images, where neither is refused and no clause is broken.
#[tactic(auto, using(crate::proofs::Replies::verdicts))]
fn both_accepted<'m, 'e>(model: &'m [u8], estimate: &'e [u8]) -> Result<Both<'m, 'e>, NotAccepted>
    ensures verdict { verdict_in result ≡ clauses.check model.now estimate.now }
    ensures model { IfOk result (λ b. b.model.image.now ≡ model.now) }
    ensures estimate { IfOk result (λ b. b.estimate.image.now ≡ estimate.now) }
{
    let both = both_read(model, estimate)?;
    first_broken::find(&both)?;
    Ok(both)
}

// The checker: accepted, or why not.
#[tactic(auto, using(crate::proofs::Replies::verdicts))]
pub fn check(model: &[u8], estimate: &[u8]) -> Result<(), NotAccepted>
    ensures { verdict_in result ≡ clauses.check model.now estimate.now }
{
    both_accepted(model, estimate)?;
    Ok(())
}

// Both images are read, and no clause is tried.
#[tactic(auto, using(crate::proofs::Replies::verdicts))]
pub fn read_estimate(model: &[u8], estimate: &[u8]) -> Result<(), NotAccepted>
    ensures { verdict_in result ≡ clauses.read_both model.now estimate.now }
{
    both_read(model, estimate)?;
    Ok(())
}

// Whether box h is shut off, where the estimate is accepted.
#[tactic(auto, using(crate::proofs::Replies::box_replies))]
fn shut_off_in(both: &Both<'_, '_>, h: usize) -> Result<bool, NoReply>
    ensures { reply_in result ≡ shut.box_reply both.now.model.image.now both.now.estimate.image.now h }
{
    if both.estimate.boxes <= h {
        return Err(NoReply::Nobody);
    }
    Ok(links::shut_off(both.estimate, h))
}

// Whether box h is shut off. h becomes an index by `as`: usize has no From<u32>.
#[tactic(auto, using(crate::proofs::Replies::replies))]
pub fn shut_off(model: &[u8], estimate: &[u8], h: u32) -> Result<bool, NoReply>
    ensures { reply_in result ≡ shut.question model.now estimate.now h }
{
    let both = both_accepted(model, estimate)?;
    shut_off_in(&both, h as usize)
}

// The refused block, where both images have one lifetime.
#[tactic(auto, using(crate::proofs::Refused::parts))]
fn refused_part<'a>(model: &'a [u8], estimate: &'a [u8]) -> &'a [u8]
    ensures { (result.now ≡ shut.refused_block model.now estimate.now) × RefusedStands model.entry estimate.entry (clauses.read_both model.now estimate.now) result }
{
    parts::part(model, estimate, read_estimate(model, estimate))
}

// The refused block, as a part of the image that it stands in: 512 bytes for refusals 2 to 5, otherwise an empty part of the model.
pub fn refused_block<'a: 'r, 'b: 'r, 'r>(model: &'a [u8], estimate: &'b [u8]) -> &'r [u8]
    ensures { (result.now ≡ shut.refused_block model.now estimate.now) × RefusedStands model.entry estimate.entry (clauses.read_both model.now estimate.now) result }
{
    let part = refused_part(model, estimate);
    part
}
