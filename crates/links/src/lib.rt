#![tactic(auto)]
// Boxes that share a type name, and boxes that are shut off: the union of a box's types on its shown names is tested against another's.
// A set of names is a word, since words are joined with & and |; that it has no digit past the names is a clause.
// Bounds of indices and counts stand in the clauses: a type for each bound would be taken apart at every use.
ghost use Rattle.std.specs.Prelude.{◌≡◌, not, ◌+◌, ◌*◌, ◌<◌, ◌≤◌, length};
ghost use Rattle.definitions.specs.Bounded.{◌implies◌, ◌isnt◌};
ghost use Rattle.definitions.specs.Estimate.{estimate_of};
ghost use Rattle.definitions.specs.ShutOff as shut;
ghost use Rattle.sets.specs.Names.{NamesOnly};
ghost use Rattle.links.specs.Types.{Types};

use estimate::Estimate;

// The union of box k's types on the names of s. Asks of the estimate only the blocks that it reads.
#[tactic(auto, using(crate::proofs::Links::unions))]
pub fn types_on(estimate: &[u8], k: usize, s: u64) -> u64
    requires there { 512 * (2 + 2 * k) ≤ length estimate.now }
    requires names { NamesOnly s }
    ensures { Types (estimate_of estimate.now) k s result }
{
    sets::union_of(s, |c| estimate::eps(estimate, k, c))
}

// The union of box k's types on its shown names.
#[tactic(auto, using(crate::proofs::Links::unions))]
fn types(e: Estimate<'_>, k: usize) -> u64
    requires { k < e.boxes }
    ensures { Types (estimate_of e.entry.image.now) k ((estimate_of e.entry.image.now).shown k) result }
{
    types_on(e.image, k, e.shown(k))
}

// Box h of an estimate, with the union of its types on its shown names.
#[derive(Clone, Copy)]
struct TypedBox<'a> {
    estimate: Estimate<'a>,
    h: usize,
    types: u64,
    ghost typed: { Types (estimate_of estimate.image.now) h ((estimate_of estimate.image.now).shown h) types },
}

impl<'a> TypedBox<'a> {
    // Box k is linked to it.
    #[tactic(auto, using(crate::proofs::Links::unions))]
    fn linked(&self, k: usize) -> bool
        requires { k < self.now.estimate.boxes }
        ensures { result ≡ shut.linked (estimate_of self.now.estimate.image.now) self.now.h k }
    {
        sets::intersects(types(self.estimate, k), self.types)
    }

    // Box k is the same, or not linked to it.
    #[tactic(auto, using(crate::proofs::Links::apart))]
    fn same_or_apart(&self, k: usize) -> bool
        requires { k < self.now.estimate.boxes }
        ensures { result ≡ (k isnt self.now.h implies not (shut.linked (estimate_of self.now.estimate.image.now) self.now.h k)) }
    {
        k == self.h || !self.linked(k)
    }
}

// Box h is shut off: it is linked to no other box.
#[tactic(auto, using(crate::proofs::Links::apart))]
pub fn shut_off(e: Estimate<'_>, h: usize) -> bool
    requires { h < e.boxes }
    ensures { result ≡ shut.shut_off (estimate_of e.entry.image.now) e.entry.boxes h }
{
    let typed = TypedBox {
        estimate: e,
        h,
        types: types(e, h),
    };
    (0..e.boxes).all(|k| typed.same_or_apart(k))
}
