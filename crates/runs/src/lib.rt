#![tactic(auto)]
// A run over a lent list of moves: model and state are tested once, then each move is made in turn, refused ones passed over.
ghost use Rattle.std.specs.Prelude.{◌≡◌, map, length, IfOk};
ghost use Rattle.definitions.specs.Bounded.{◌or◌, ◌isnt◌};
ghost use Rattle.definitions.specs.Record.{state_length};
ghost use Rattle.definitions.specs.Moves as moves;
ghost use Rattle.definitions.specs.Calls as calls;
ghost use Rattle.refusals.specs.Answers.{answer_in};
ghost use Rattle.lookups.specs.Ready.{Ready};
ghost use Rattle.state.specs.Moves.{five_in, move_in};
ghost use Rattle.runs.specs.Moves.{moves_in, moves_of};

use deciding::number;
use model::ReadModel;
use refusals::Refusal;
pub use state::moves::Move;
use state::moves::Turn;

// The tests of a run of so many moves with room for so many answers: the model. The words are only looked at.
#[tactic(auto, using(crate::proofs::RunLaws::tests))]
fn begin<'a>(
    model: &'a [u8],
    state: &[u32],
    moves: usize,
    answers: usize,
) -> Result<ReadModel<'a>, Refusal>
    ensures answer { answer_in result ≡ calls.moves_refusal model.now state.now (length state.now isnt state_length or answers isnt moves) }
    ensures ready { IfOk result (λ m. Ready m state.now) }
    ensures image { IfOk result (λ m. m.image.now ≡ model.now) }
{
    let wrong = (state.len() != 9112) | (answers != moves);
    reduction::refusal(model, state, wrong)
}

// What a move is read from: the move itself, or its five numbers. The library's Into says which results are right, and no list of moves
// that a contract could name.
trait Listed {
    ghost as_move: { Self → moves.Move };

    fn get(&self) -> Move
        ensures { move_in result ≡ as_move self.now };
}

impl Listed for Move {
    ghost as_move = { move_in };

    fn get(&self) -> Move {
        *self
    }
}

impl Listed for [u32; 5] {
    ghost as_move = { five_in };

    fn get(&self) -> Move {
        Move::from(*self)
    }
}

// Each move of a list in turn, in the lent words, with one answer a move.
#[tactic(auto, using(crate::proofs::Fold::moves_runs))]
fn run_each<T: Listed>(
    model: &[u8],
    state: &mut [u32],
    moves: &[T],
    answers: &mut [u8],
) -> Result<(), Refusal>
    ensures answer { answer_in result ≡ (calls.run model.now state.old (map T.as_move moves.now) answers.old).answer }
    ensures words { state.new ≡ (calls.run model.now state.old (map T.as_move moves.now) answers.old).words }
    ensures answers { answers.new ≡ (calls.run model.now state.old (map T.as_move moves.now) answers.old).answers }
{
    let read = begin(model, state, moves.len(), answers.len())?.by_fields();
    // By an index: of a list that is written under `zip` the library does not say what it holds after.
    for (i, m) in moves.iter().enumerate() {
        answers[i] = number(turns::turn(&read, state, Turn::from(m.get())));
    }
    Ok(())
}

// Each move of a list in turn, in the lent words, with one answer a move: 0, or 12 to 20 where it is refused and passed over. Refused for
// the model, then with 10, then with 11, before the first move: nothing is written then.
pub fn run(
    model: &[u8],
    state: &mut [u32],
    moves: &[Move],
    answers: &mut [u8],
) -> Result<(), Refusal>
    ensures answer { answer_in result ≡ (calls.run model.now state.old (moves_in moves.now) answers.old).answer }
    ensures words { state.new ≡ (calls.run model.now state.old (moves_in moves.now) answers.old).words }
    ensures answers { answers.new ≡ (calls.run model.now state.old (moves_in moves.now) answers.old).answers }
{
    run_each(model, state, moves, answers)
}

// The same over a list of numbers, five a move; fewer than five at its end are no move.
#[tactic(auto, using(crate::proofs::RunLaws::numbers))]
pub fn run_numbers(
    model: &[u8],
    state: &mut [u32],
    numbers: &[u32],
    answers: &mut [u8],
) -> Result<(), Refusal>
    ensures answer { answer_in result ≡ (calls.run model.now state.old (moves_in (moves_of numbers.now)) answers.old).answer }
    ensures words { state.new ≡ (calls.run model.now state.old (moves_in (moves_of numbers.now)) answers.old).words }
    ensures answers { answers.new ≡ (calls.run model.now state.old (moves_in (moves_of numbers.now)) answers.old).answers }
{
    run_each(model, state, numbers.as_chunks::<5>().0, answers)
}
