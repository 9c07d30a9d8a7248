// The two ends of an inter move, each in its own box's record: what the output sends, the input's thread, the output's thread.
// Bounds of indices and counts stand in the clauses: a type for each bound would be taken apart at every use.
// The record is in order only before the move, so its box's model and number are parameters.
// A child becomes a word by `as`: u32 has no From<usize>.
ghost use Rattle.std.specs.Prelude.{◌≡◌, ◌<◌};
ghost use Rattle.definitions.specs.Model.{output, input};
ghost use Rattle.definitions.specs.Record as words;
ghost use Rattle.definitions.specs.Moves as moves;
ghost use Rattle.lookups.specs.Ready.{kinds_in, box_in, BoxReady};

use lookups::{ReadyBox, ReadyThread, thread_line};
use model::ReadModel;
use state::{Held, edits};

// What thread t, which is at an output, sends. The ReadyThread is built here: `ReadyBox::thread` answers an Option, and this thread is there.
#[tactic(auto, using(crate::proofs::Lefts::ends))]
pub fn sent(x: &ReadyBox<'_>, t: usize) -> Held
    requires live { t < words.threads x.now.r.now }
    requires there { (moves.thread_line (kinds_in x.now.model.now) (box_in x.now.model.now x.now.b) x.now.r.now t).op ≡ output }
    ensures { result.0 ≡ moves.value2 (kinds_in x.now.model.now) (box_in x.now.model.now x.now.b) x.now.r.now t }
{
    let y = ReadyThread {
        of: x,
        t,
        line: thread_line(x.model, x.b, x.r, t),
    };
    y.sent()
}

// Thread t, which is at an input, binds what it receives and goes on.
#[tactic(auto, using(crate::proofs::Lefts::ends))]
pub fn receive(model: &ReadModel<'_>, b: usize, r: &mut [u32; 1139], t: usize, v: Held)
    requires ready { BoxReady model.now b r.old }
    requires live { t < words.threads r.old }
    requires there { (moves.thread_line (kinds_in model.now) (box_in model.now b) r.old t).op ≡ input }
    ensures { r.new ≡ words.put_thread r.old t (moves.onward_with (kinds_in model.now) (box_in model.now b) r.old t (moves.thread_line (kinds_in model.now) (box_in model.now b) r.old t).name2 v.0) }
{
    let l = thread_line(model, b, r, t);
    edits::bind(r, t, l.name2, v);
    edits::set_line(r, t, l.child1 as u32);
}

// Thread t, which is at an output, goes on.
#[tactic(auto, using(crate::proofs::Lefts::ends))]
pub fn onward(model: &ReadModel<'_>, b: usize, r: &mut [u32; 1139], t: usize)
    requires ready { BoxReady model.now b r.old }
    requires live { t < words.threads r.old }
    requires there { (moves.thread_line (kinds_in model.now) (box_in model.now b) r.old t).op ≡ output }
    ensures { r.new ≡ words.put_thread r.old t (moves.onward (kinds_in model.now) (box_in model.now b) r.old t) }
{
    let l = thread_line(model, b, r, t);
    edits::set_line(r, t, l.child1 as u32);
}
