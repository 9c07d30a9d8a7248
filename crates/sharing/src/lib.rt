#![tactic(auto)]
// What clauses 4, 5 and 6 ask of a line's second name, gathered into one set for its channel: each of several sets is within a set exactly
// when their union is, and a set is within each of several exactly when it is within the names that all of them have. A function that has an
// image asks of the estimate only the blocks that it reads.
// A set of names is a word, since words are joined with & and |; that it has no digit past the names is a clause.
// Bounds of indices and counts stand in the clauses: a type for each bound would be taken apart at every use.
ghost use Rattle.std.specs.Prelude.{◌≡◌, ◌+◌, ◌*◌, ◌<◌, ◌≤◌, length};
ghost use Rattle.definitions.specs.Estimate.{estimate_of};
ghost use Rattle.sets.specs.Names.{NamesOnly};
ghost use Rattle.sharing.specs.Shared.{Least, Joined, all_sent_in, sent_by_others, all_shared_in, shared_by_others, shared_on, may_send, Most, SetsOf, Sends, TypeTable, GatheredOf, NothingGathered};

use estimate::Estimate;
use sets::Ascending;

// All that box k may send on the names of s.
#[tactic(auto, using(crate::proofs::Gather::gathers))]
pub fn sent_on(estimate: &[u8], k: usize, s: u64) -> u64
    requires there { 512 * (3 + 2 * k) ≤ length estimate.now }
    requires names { NamesOnly s }
    ensures { Least result (all_sent_in (estimate_of estimate.now) k s) }
{
    sets::union_of(s, |c| estimate::kap(estimate, k, c))
}

// w with what box k may send on each c in s for which the type x shares a name with eps(k, c). all: all that box k may send on s; once it is
// gathered, nothing more is asked.
#[tactic(auto, using(crate::proofs::Gather::gathers))]
fn join_names(estimate: &[u8], x: u64, k: usize, s: u64, all: u64, w: u64) -> u64
    requires there { 512 * (3 + 2 * k) ≤ length estimate.now }
    requires names { NamesOnly s }
    requires all { Least all (all_sent_in (estimate_of estimate.now) k s) }
    ensures { Joined result w (all_shared_in (estimate_of estimate.now) x k s) }
{
    let mut v = w;
    for c in Ascending(s) {
        if sets::is_subset(all, v) {
            return v;
        }
        if sets::intersects(x, estimate::eps(estimate, k, c)) {
            v = sets::union(v, estimate::kap(estimate, k, c));
        }
    }
    v
}

// What box b may send on every name of s: the names that each kap(b, a) has. The one intersection over a set, so a loop: a second fold for
// it would be no shorter.
#[tactic(auto, using(crate::proofs::Gather::gathers))]
fn sent_most(estimate: &[u8], b: usize, s: u64) -> u64
    requires there { 512 * (3 + 2 * b) ≤ length estimate.now }
    requires names { NamesOnly s }
    ensures { Most result (may_send (estimate_of estimate.now) b s) }
{
    let mut w = u64::MAX;
    for a in Ascending(s) {
        w = sets::intersection(w, estimate::kap(estimate, b, a));
    }
    w
}

// What clauses 4, 5 and 6 ask of the lines of a box, for the sets that they were last gathered for: most, for outputs on a channel whose
// rho(p) is `out`; all, for inputs where it is `on`; asks, for inputs whose types have the union `types`.
// That it is gathered for box b of an estimate is a clause: a ghost field for it would carry both along.
#[derive(Clone, Copy)]
pub struct Gathered {
    pub out: u64,
    pub most: u64,
    pub on: u64,
    pub all: u64,
    pub types: u64,
    pub asks: u64,
}

// For no names: an output may send all, and nothing is asked of an input.
#[tactic(auto, using(crate::proofs::Gather::gathered))]
pub fn nothing() -> Gathered
    ensures { NothingGathered result }
{
    Gathered {
        out: 0,
        most: u64::MAX,
        on: 0,
        all: 0,
        types: 0,
        asks: 0,
    }
}

// The three calls by clause fill two fields each, of their own: one call for them would take the fields and the set that fills them.

// Clause 4, for outputs on a channel whose rho(p) is s; boxes stands in the contract alone: an Estimate would ask for all of its blocks.
#[tactic(auto, using(crate::proofs::Gather::gathered))]
pub fn for_outputs(estimate: &[u8], boxes: usize, b: usize, s: u64, g: Gathered) -> Gathered
    requires there { 512 * (3 + 2 * b) ≤ length estimate.now }
    requires names { NamesOnly s }
    requires gathered { GatheredOf (estimate_of estimate.now) boxes b g }
    ensures gathered { GatheredOf (estimate_of estimate.now) boxes b result }
    ensures out { result.out ≡ s }
{
    if s == g.out {
        return g;
    }
    Gathered {
        out: s,
        most: sent_most(estimate, b, s),
        ..g
    }
}

// Clause 5, for inputs on a channel whose rho(p) is s; boxes as for clause 4.
#[tactic(auto, using(crate::proofs::Gather::gathered))]
pub fn for_inputs(estimate: &[u8], boxes: usize, b: usize, s: u64, g: Gathered) -> Gathered
    requires there { 512 * (3 + 2 * b) ≤ length estimate.now }
    requires names { NamesOnly s }
    requires gathered { GatheredOf (estimate_of estimate.now) boxes b g }
    ensures gathered { GatheredOf (estimate_of estimate.now) boxes b result }
    ensures on { result.on ≡ s }
{
    if s == g.on {
        return g;
    }
    Gathered {
        on: s,
        all: sent_on(estimate, b, s),
        ..g
    }
}

// Of one box, all that it may send on its shown names, and the union of its types on them.
#[derive(Clone, Copy)]
pub struct BoxSets {
    pub sends: u64,
    pub types: u64,
}

// The sets of box k.
#[tactic(auto, using(crate::proofs::Gather::tables))]
fn box_sets(e: Estimate<'_>, k: usize) -> BoxSets
    requires { k < e.boxes }
    ensures { SetsOf e.entry.image.now k result }
{
    let shown = e.shown(k);
    BoxSets {
        sends: sent_on(e.image, k, shown),
        types: links::types_on(e.image, k, shown),
    }
}

// All that the boxes other than b may send on their shown names. It asks nothing of their types, so it takes no Tables.
#[tactic(auto, using(crate::proofs::Gather::gathers))]
pub fn sent_by_others(e: Estimate<'_>, each: &[BoxSets; 8], b: usize) -> u64
    requires sent { Sends e.image.now e.boxes each.now }
    requires within { b < e.boxes }
    ensures { Least result (sent_by_others (estimate_of e.entry.image.now) e.entry.boxes b) }
{
    let mut w: u64 = 0;
    for (k, x) in each[..e.boxes].iter().enumerate() {
        if k != b {
            w = sets::union(w, x.sends);
        }
    }
    w
}

// An estimate, with the sets of each box.
// The count of boxes is the estimate's: fixed memory, no heap.
#[derive(Clone, Copy)]
pub struct Tables<'a> {
    pub estimate: Estimate<'a>,
    pub each: [BoxSets; 8],
    pub ghost sent: { Sends estimate.image.now estimate.boxes each },
    pub ghost typed: { TypeTable (estimate_of estimate.image.now) estimate.boxes each },
}

impl<'a> Tables<'a> {
    // The tables of an estimate that has been read.
    #[tactic(auto, using(crate::proofs::Gather::tables))]
    pub fn new(e: Estimate<'a>) -> Tables<'a>
        ensures of { result.estimate.image.now ≡ e.entry.image.now }
        ensures boxes { result.estimate.boxes ≡ e.entry.boxes }
    {
        let mut each = [BoxSets { sends: 0, types: 0 }; 8];
        for (k, x) in each[..e.boxes].iter_mut().enumerate() {
            *x = box_sets(e, k);
        }
        Tables { estimate: e, each }
    }

    // w with what clause 6 asks for the type x at each shown name of box k, where box k's types share a name with x.
    #[tactic(auto, using(crate::proofs::Gather::gathered))]
    fn join_shown(&self, x: u64, k: usize, w: u64) -> u64
        requires { k < self.now.estimate.boxes }
        ensures { Joined result w (all_shared_in (estimate_of self.now.estimate.image.now) x k ((estimate_of self.now.estimate.image.now).shown k)) }
    {
        if !sets::intersects(x, self.each[k].types) {
            return w;
        }
        let image = self.estimate.image;
        let s = self.estimate.shown(k);
        join_names(image, x, k, s, self.each[k].sends, w)
    }

    // What clause 6 asks at names of box b whose types have the union x. As sent_by_others, but each box joins to what is gathered, so that it
    // may stop. A range: join_shown takes box k by its number.
    #[tactic(auto, using(crate::proofs::Gather::gathers))]
    fn shared_with(&self, b: usize, x: u64) -> u64
        requires { b < self.now.estimate.boxes }
        ensures { Least result (shared_by_others (estimate_of self.now.estimate.image.now) self.now.estimate.boxes b x) }
    {
        let mut w: u64 = 0;
        for k in 0..self.estimate.boxes {
            if k != b {
                w = self.join_shown(x, k, w);
            }
        }
        w
    }

    // Clause 6, for inputs whose types have the union x.
    #[tactic(auto, using(crate::proofs::Gather::gathered))]
    fn for_types(&self, b: usize, x: u64, g: Gathered) -> Gathered
        requires box_in { b < self.now.estimate.boxes }
        requires gathered { GatheredOf (estimate_of self.now.estimate.image.now) self.now.estimate.boxes b g }
        ensures gathered { GatheredOf (estimate_of self.now.estimate.image.now) self.now.estimate.boxes b result }
        ensures types { result.types ≡ x }
        ensures kept { (result.on ≡ g.on) × (result.all ≡ g.all) }
    {
        if x == g.types {
            return g;
        }
        Gathered {
            types: x,
            asks: self.shared_with(b, x),
            ..g
        }
    }

    // Clause 6, for inputs on a channel whose rho(p) is s: by the union of the types of its shown names.
    #[tactic(auto, using(crate::proofs::Gather::gathered))]
    pub fn for_partners(&self, b: usize, s: u64, g: Gathered) -> Gathered
        requires box_in { b < self.now.estimate.boxes }
        requires names { NamesOnly s }
        requires gathered { GatheredOf (estimate_of self.now.estimate.image.now) self.now.estimate.boxes b g }
        ensures gathered { GatheredOf (estimate_of self.now.estimate.image.now) self.now.estimate.boxes b result }
        ensures asks { Least result.asks (shared_on (estimate_of self.now.estimate.image.now) self.now.estimate.boxes b s) }
        ensures kept { (result.on ≡ g.on) × (result.all ≡ g.all) }
    {
        let image = self.estimate.image;
        let shown = sets::intersection(s, self.estimate.shown(b));
        let x = links::types_on(image, b, shown);
        self.for_types(b, x, g)
    }
}
