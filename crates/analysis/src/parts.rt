// The refused block, as a part of the image that it stands in.
// Bounds of indices and counts stand in the clauses: a type for each bound would be taken apart at every use.
ghost use Rattle.std.specs.Prelude.{◌≡◌, [], ◌+◌, ◌*◌, ◌≤◌, length};
ghost use Rattle.definitions.specs.Words.{block_of};
ghost use Rattle.definitions.specs.ShutOff as shut;
ghost use Rattle.refusals.specs.Answers.{refusal_in};
ghost use Rattle.analysis.specs.Answers.{not_accepted_in, verdict_in};
ghost use Rattle.analysis.specs.Known.{BlockThere, RefusedThere};
ghost use Rattle.analysis.specs.Places.{At, Stands, RefusedStands};

use crate::NotAccepted;
use refusals::{Refusal, Rule};

fn nothing<'a>(image: &'a [u8]) -> &'a [u8]
    ensures { (result.now ≡ []) × At result image.entry 0 }
{
    &image[0..0]
}

// Block k, which is there. A slice, since its contract says where the bytes stand in the image.
#[tactic(auto, using(crate::proofs::Refused::blocks))]
fn whole<'a>(image: &'a [u8], k: usize) -> &'a [u8]
    requires { 512 * (k + 1) ≤ length image.now }
    ensures { (result.now ≡ block_of image.now k) × At result image.entry (512 * k) }
{
    let start = 512 * k;
    let end = start + 512;
    &image[start..end]
}

// The block of a refusal of an image. Only Check to Stray have one.
#[tactic(auto, using(crate::proofs::Refused::blocks))]
fn refused<'a>(model: &'a [u8], image: &'a [u8], r: Refusal) -> &'a [u8]
    requires { BlockThere image.now r.number r.place }
    ensures { (result.now ≡ shut.refused_part image.now (refusal_in r)) × Stands model.entry image.entry result r.place }
{
    if (Rule::Check as u8..=Rule::Stray as u8).contains(&r.number) {
        whole(image, r.place)
    } else {
        nothing(model)
    }
}

// What is handed back where the estimate is not accepted: for a broken clause an empty part of the model. The two refusals differ in their image:
// one line each.
#[tactic(auto, using(crate::proofs::Refused::parts))]
fn of_refusal<'a>(model: &'a [u8], estimate: &'a [u8], e: NotAccepted) -> &'a [u8]
    requires { RefusedThere model.now estimate.now (not_accepted_in e) }
    ensures { (result.now ≡ shut.refused_in model.now estimate.now (not_accepted_in e)) × RefusedStands model.entry estimate.entry (not_accepted_in e) result }
{
    match e {
        NotAccepted::Breaks(_) => nothing(model),
        NotAccepted::RefusedModel(r) => refused(model, model, r),
        NotAccepted::RefusedEstimate(r) => refused(model, estimate, r),
    }
}

// What is handed back for a verdict: where there is no refused block, an empty part of the model.
#[tactic(auto, using(crate::proofs::Refused::parts))]
pub fn part<'a>(model: &'a [u8], estimate: &'a [u8], v: Result<(), NotAccepted>) -> &'a [u8]
    requires { RefusedThere model.now estimate.now (verdict_in v) }
    ensures { (result.now ≡ shut.refused_in model.now estimate.now (verdict_in v)) × RefusedStands model.entry estimate.entry (verdict_in v) result }
{
    match v {
        Ok(()) => nothing(model),
        Err(e) => of_refusal(model, estimate, e),
    }
}
