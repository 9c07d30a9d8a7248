#![tactic(auto)]
// A move in a whole state, made where it is allowed: the core that steps and runs go over. It requires a state that obeys the state rules
// of a model that is read, and keeps them.
// The state is lent for writing, so that it obeys the rules is a clause, and no fact of a struct.
ghost use Rattle.std.specs.Prelude.{◌≡◌};
ghost use Rattle.definitions.specs.Image.{model_of};
ghost use Rattle.definitions.specs.Moves as moves;
ghost use Rattle.definitions.specs.Calls.{outcome_number, outcome_words};
ghost use Rattle.state.specs.Kinds.{kind_number};
ghost use Rattle.state.specs.Moves.{move_of, turn_in};
ghost use Rattle.lookups.specs.Ready.{Ready};
ghost use Rattle.deciding.specs.Numbers.{blocked_in};
ghost use Rattle.making.specs.Left.{IsMade};

use deciding::Blocked;
use lookups::ReadyBox;
use model::ReadModel;
use state::kinds::Kind;
use state::moves::Turn;

// Inter: what the second thread sends is bound by the first; each in its own box's record.
fn inter(model: &ReadModel<'_>, state: &mut [u32], m: Turn)
    requires ready { Ready model.now state.old }
    requires made { IsMade (moves.inter_act (model_of model.now.image.now) state.old m.b m.t m.c m.u) }
    ensures { moves.inter_act (model_of model.now.image.now) state.old m.b m.t m.c m.u ≡ moves.made state.new }
{
    let y = ReadyBox {
        model: &*model,
        b: m.c,
        r: state::record(state, m.c),
    };
    let v = making::ends::sent(&y, m.u);
    let (_, first) = state.split_at_mut(1139 * m.b);
    making::ends::receive(model, m.b, state::first_record(first), m.t, v);
    let (_, second) = state.split_at_mut(1139 * m.c);
    making::ends::onward(model, m.c, state::first_record(second), m.u);
}

// A move that is allowed, made: inside a box in that box's part of the state and no other. kind stands for the move's
// first number, which is not read.
pub fn make(model: &ReadModel<'_>, state: &mut [u32], kind: Kind, m: Turn)
    requires ready { Ready model.now state.old }
    requires made { IsMade (moves.act (model_of model.now.image.now) state.old (move_of (kind_number kind) m.b m.t m.c m.u)) }
    ensures { moves.act (model_of model.now.image.now) state.old (move_of (kind_number kind) m.b m.t m.c m.u) ≡ moves.made state.new }
{
    match kind {
        Kind::Inter => inter(model, state, m),
        _ => {
            let (_, words) = state.split_at_mut(1139 * m.b);
            making::inside::make(model, m.b, state::first_record(words), kind, m.t, m.u);
        }
    }
}

// A move, made where it is allowed.
pub fn turn(model: &ReadModel<'_>, state: &mut [u32], m: Turn) -> Result<(), Blocked>
    requires { Ready model.now state.old }
    ensures answer { blocked_in result ≡ outcome_number (moves.act (model_of model.now.image.now) state.old (turn_in m)) }
    ensures words { state.new ≡ outcome_words state.old (moves.act (model_of model.now.image.now) state.old (turn_in m)) }
    ensures keeps { Ready model.now state.new }
{
    let kind = deciding::allowed(model, state, m)?;
    make(model, state, kind, m);
    Ok(())
}
