// The site of an expose, written behind the others.
// The record is lent for writing, so what holds of its names before is a clause.
// A count becomes a word by `as`: u32 has no From<usize>.
ghost use Rattle.std.specs.Prelude.{◌≡◌, ◌∷◌};
ghost use Rattle.definitions.specs.Slots.{put};
ghost use Rattle.definitions.specs.Image.{model_of};
ghost use Rattle.definitions.specs.Record as words;
ghost use Rattle.definitions.specs.Start.{type_words};
ghost use Rattle.definitions.specs.Moves as moves;
ghost use Rattle.making.specs.Exposed.{NamesHeld, TypeRoom, SiteRoom};

use lookups::value;
use state::{Held, edits};

// The held names of a type's names in thread t, ascending without repeats, into eight words that are zero: the lowest name is put in last. A
// recursion, as the definition is: a loop over the names would put the lowest in first, and want that insertions commute.
#[tactic(auto, using(crate::proofs::Exposes::types))]
fn type_names(model: &[u8], r: &mut [u32; 1139], t: usize, at: usize, names: u64)
    requires names { NamesHeld model.now r.old t names }
    requires room { TypeRoom r.old at }
    ensures { r.new ≡ put r.old at (type_words (moves.value_in (model_of model.now).kinds (words.thread r.old t)) names) }
{
    if let Some(n) = sets::lowest(names) {
        type_names(model, r, t, at, sets::without_lowest(names));
        let v = value(model, r, t, n);
        edits::insert_name(r, at, v);
    }
}

// One site more, shown, with the type's held names in thread t.
#[tactic(auto, using(crate::proofs::Exposes::exposed))]
pub fn append_site(model: &[u8], r: &mut [u32; 1139], t: usize, subject: Held, names: u64)
    requires names { NamesHeld model.now r.old t names }
    requires room { SiteRoom r.old }
    ensures { r.new ≡ words.push_site r.old (subject.0 ∷ 0 ∷ type_words (moves.value_in (model_of model.now).kinds (words.thread r.old t)) names) }
{
    let n = state::sites(r);
    let at = 3 + 10 * n;
    r[at] = subject.0;
    type_names(model, r, t, at + 2, names);
    r[2] = n as u32 + 1;
}
