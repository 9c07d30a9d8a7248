// What the names of a thread's line stand for.
ghost use Rattle.std.specs.Prelude.{◌≡◌, ◌≤◌};
ghost use Rattle.definitions.specs.Model.{output};
ghost use Rattle.lookups.specs.Threads.{subject_of, sent_of};

use crate::{ReadyThread, value};
use state::Held;

impl ReadyThread<'_> {
    // What its line's first name stands for, from restriction on: at an output or an input the channel, at a hide or an unhide the site's subject.
    // In place: as a call, it has each thread of a move written to the stack first, also where the move is refused before.
    #[inline(always)]
    #[tactic(auto, using(crate::proofs::Lookups::threads))]
    pub fn subject(&self) -> Held
        requires { 3 ≤ self.now.line.op }
        ensures { result.0 ≡ subject_of self.now }
    {
        value(self.of.model.image, self.of.r, self.t, self.line.name1)
    }

    // What it sends, at an output. In place, as the subject.
    #[inline(always)]
    #[tactic(auto, using(crate::proofs::Lookups::threads))]
    pub fn sent(&self) -> Held
        requires { self.now.line.op ≡ output }
        ensures { result.0 ≡ sent_of self.now }
    {
        value(self.of.model.image, self.of.r, self.t, self.line.name2)
    }
}
