#![tactic(auto)]
// The calls that C and Rust link: numbers and slices in, one number out.
ghost use Rattle.std.specs.Prelude.{◌≡◌, length};
ghost use Rattle.definitions.specs.Check.{check_of};
ghost use Rattle.definitions.specs.ReadModel.{read_model};
ghost use Rattle.definitions.specs.Clauses as clauses;
ghost use Rattle.definitions.specs.ShutOff.{question, refused_block};
ghost use Rattle.definitions.specs.Calls as calls;
ghost use Rattle.blocks.specs.Answers.{of_block};
ghost use Rattle.state.specs.Moves.{move_of};
ghost use Rattle.runs.specs.Moves.{moves_in};
ghost use Rattle.packing.specs.Packed.{pack_verdict, pack_reply, pack_call, pack_part};
ghost use Rattle.capi.specs.Copied.{or_zero, copied, pack_copied};

use runs::Move;

// The check that block k ought to have: 0 where the image has no such block.
#[unsafe(no_mangle)]
pub extern "C" fn bm_block_check(image: &[u8], k: usize) -> u64
    ensures { result ≡ or_zero (of_block image.now k check_of) }
{
    blocks::block_check(image, k).unwrap_or(0)
}

// The model's refusal: 0 where there is none.
#[unsafe(no_mangle)]
pub extern "C" fn bm_read_model(image: &[u8]) -> u64
    ensures { result ≡ pack_call (read_model image.now) }
{
    packing::of_call(model::read(image).map(|_| ()))
}

// The refusal of the model, then of the estimate: 0 where there is none. No clause is tried.
#[unsafe(no_mangle)]
pub extern "C" fn bm_read_estimate(model: &[u8], estimate: &[u8]) -> u64
    ensures { result ≡ pack_verdict (clauses.read_both model.now estimate.now) }
{
    packing::of_verdict(analysis::read_estimate(model, estimate))
}

// The checker's verdict.
#[unsafe(no_mangle)]
pub extern "C" fn bm_check(model: &[u8], estimate: &[u8]) -> u64
    ensures { result ≡ pack_verdict (clauses.check model.now estimate.now) }
{
    packing::of_verdict(analysis::check(model, estimate))
}

// Whether box h is shut off.
#[unsafe(no_mangle)]
pub extern "C" fn bm_shut_off(model: &[u8], estimate: &[u8], h: u32) -> u64
    ensures { result ≡ pack_reply (question model.now estimate.now h) }
{
    packing::of_reply(analysis::shut_off(model, estimate, h))
}

// A model is started into the lent words.
#[unsafe(no_mangle)]
pub extern "C" fn bm_start(model: &[u8], state: &mut [u32]) -> u64
    ensures answer { result ≡ pack_call (calls.start model.now state.old).answer }
    ensures words { state.new ≡ (calls.start model.now state.old).words }
{
    packing::of_call(start::start(model, state))
}

// A move: its kind, box, thread, second box and second thread.
#[unsafe(no_mangle)]
pub extern "C" fn bm_step(
    model: &[u8],
    state: &mut [u32],
    kind: u32,
    b: u32,
    t: u32,
    c: u32,
    u: u32,
) -> u64
    ensures answer { result ≡ pack_call (calls.step model.now state.old (move_of kind b t c u)).answer }
    ensures words { state.new ≡ (calls.step model.now state.old (move_of kind b t c u)).words }
{
    let m = Move {
        kind,
        boxno: b,
        thread: t,
        boxno2: c,
        thread2: u,
    };
    packing::of_call(reduction::step(model, state, m))
}

// The moves of a list in turn, each with its answer.
#[unsafe(no_mangle)]
pub extern "C" fn bm_run(model: &[u8], state: &mut [u32], moves: &[Move], answers: &mut [u8]) -> u64
    ensures answer { result ≡ pack_call (calls.run model.now state.old (moves_in moves.now) answers.old).answer }
    ensures words { state.new ≡ (calls.run model.now state.old (moves_in moves.now) answers.old).words }
    ensures answers { answers.new ≡ (calls.run model.now state.old (moves_in moves.now) answers.old).answers }
{
    packing::of_call(runs::run(model, state, moves, answers))
}

// Where the refused block stands: in which image, at which block, and how many bytes.
#[tactic(auto, using(crate::proofs::Laws::placed), unfolding(definitions::specs::ShutOff::refused_block))]
#[unsafe(no_mangle)]
pub extern "C" fn bm_refused_block<'a>(model: &'a [u8], estimate: &'a [u8]) -> u64
    ensures { result ≡ pack_part (clauses.read_both model.now estimate.now) (length (refused_block model.now estimate.now)) }
{
    let v = analysis::read_estimate(model, estimate);
    let part = analysis::parts::part(model, estimate, v);
    packing::of_part(v, part.len())
}

// The refused block, copied to the front of a lent buffer.
#[tactic(auto, using(crate::proofs::Laws::fits), unfolding(crate::specs::Copied::copied, crate::specs::Copied::pack_copied))]
#[unsafe(no_mangle)]
pub extern "C" fn bm_copy_refused_block<'a>(
    model: &'a [u8],
    estimate: &'a [u8],
    out: &mut [u8],
) -> u64
    ensures answer { result ≡ pack_copied (refused_block model.now estimate.now) out.old }
    ensures bytes { out.new ≡ copied (refused_block model.now estimate.now) out.old }
{
    let part = analysis::refused_block(model, estimate);
    let n = part.len();
    if out.len() < n {
        // The C interface's tag for no room.
        return 7;
    }
    out[..n].copy_from_slice(part);
    packing::packed(0, 0, n, 0)
}
