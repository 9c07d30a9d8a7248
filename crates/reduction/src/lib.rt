#![tactic(auto)]
// One move of a model. No call asks anything of its arguments: any bytes, any words, any numbers.
ghost use Rattle.std.specs.Prelude.{◌≡◌, IfOk};
ghost use Rattle.definitions.specs.Calls as calls;
ghost use Rattle.refusals.specs.Answers.{answer_in};
ghost use Rattle.state.specs.Moves.{move_in};
ghost use Rattle.lookups.specs.Ready.{Ready};

use model::ReadModel;
use refusals::{Refusal, Rule};
pub use state::moves::Move;
use state::moves::Turn;

// The refusal of the model, then 10 where a lent list has the wrong length, then 11 where the words do not obey the state rules; else the
// model.
#[tactic(auto, using(crate::proofs::StepLaws::refusals))]
pub fn refusal<'a>(model: &'a [u8], state: &[u32], wrong: bool) -> Result<ReadModel<'a>, Refusal>
    ensures answer { answer_in result ≡ calls.moves_refusal model.now state.now wrong }
    ensures ready { IfOk result (λ m. Ready m state.now) }
    ensures image { IfOk result (λ m. m.image.now ≡ model.now) }
{
    let m = model::read(model)?.by_fields();
    Rule::Room.fault_if(wrong, 0, 0)?;
    let fits = state_rules::fits(&m, state);
    Rule::Spoilt.fault_if(!fits, 0, 0)?;
    Ok(m.by_fields())
}

// A move: the words are what it leaves, or as before where it is refused.
#[tactic(auto, using(crate::proofs::StepLaws::steps))]
pub fn step(model: &[u8], state: &mut [u32], m: Move) -> Result<(), Refusal>
    ensures answer { answer_in result ≡ (calls.step model.now state.old (move_in m)).answer }
    ensures words { state.new ≡ (calls.step model.now state.old (move_in m)).words }
{
    let read = refusal(model, state, state.len() != 9112)?.by_fields();
    turns::turn(&read, state, Turn::from(m))?;
    Ok(())
}
