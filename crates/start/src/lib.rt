#![tactic(auto)]
// Starting a model: every word of the lent state is written, or a refusal given and nothing written.
// A count becomes a word by `as`: u32 has no From<usize>.
// Bounds of indices and counts stand in the clauses: a type for each bound would be taken apart at every use.
ghost use Rattle.std.specs.Prelude.{◌≡◌, ◌<◌, length};
ghost use Rattle.definitions.specs.Limits.{type_limit};
ghost use Rattle.definitions.specs.Slots.{zeros};
ghost use Rattle.definitions.specs.Model.{box_at};
ghost use Rattle.definitions.specs.Image.{model_of};
ghost use Rattle.definitions.specs.Record.{site_width, record_length, state_length};
ghost use Rattle.definitions.specs.Start.{type_words, free_held, start_site, start_record, start_state};
ghost use Rattle.definitions.specs.Calls as calls;
ghost use Rattle.refusals.specs.Answers.{answer_in};
ghost use Rattle.records.specs.Records.{site_in};
ghost use Rattle.start.specs.NamesOnly.{TypeOfNames, SiteOfNames};

use model::ReadModel;
use records::Site;
use refusals::{Refusal, Rule};
use sets::Ascending;

// The names of a type, lowest first, each with stamp 0, into eight words that are zero. By index: of words written in
// `words.iter_mut().zip(..)` the library says nothing at the goal `returns`.
#[tactic(auto, using(crate::proofs::StartLaws::names))]
fn write_names(words: &mut [u32], names: u64)
    requires clear { words.old ≡ zeros type_limit }
    requires names { TypeOfNames names }
    ensures { words.new ≡ type_words free_held names }
{
    for (i, n) in Ascending(names).enumerate() {
        words[i] = state::stamped(n, 0).0;
    }
}

// A site, into ten words that are zero: its subject with stamp 0, 0 shown or 1 hidden, its type.
#[tactic(auto, using(crate::proofs::StartLaws::sites))]
fn write_site(words: &mut [u32], s: Site)
    requires clear { words.old ≡ zeros site_width }
    requires site { SiteOfNames (site_in s) }
    ensures { words.new ≡ start_site (site_in s) }
{
    words[0] = state::stamped(s.subject, 0).0;
    words[1] = u32::from(s.flag);
    write_names(&mut words[2..10], s.names);
}

// The record of box b, into words that are zero: one thread, which stands at line 0, and the sites. Sites are lent by index, since the
// library says nothing of what a list ends as that was lent by `as_chunks_mut` or `chunks_exact_mut`.
#[tactic(auto, using(crate::proofs::StartLaws::records))]
fn start_record(m: &ReadModel<'_>, b: usize, r: &mut [u32; 1139])
    requires there { b < m.now.layout.boxes }
    requires clear { r.old ≡ zeros record_length }
    ensures { r.new ≡ start_record (box_at (model_of m.now.image.now) b) }
{
    let place = m.layout.each[b];
    let block = records::inside::block(m.image, place.at as usize);
    let count = place.sites as usize;
    r[1] = 1;
    r[2] = count as u32;
    for i in 0..count {
        let from = 3 + 10 * i;
        let site = records::inside::site(block, i);
        write_site(&mut r[from..from + 10], site);
    }
}

// The state is a slice, as C lends it; its length is a clause.

// The whole state: the record of each box of the model, and zeros for each box that the model lacks. Records are lent by index too.
#[tactic(auto, using(crate::proofs::StartLaws::states))]
fn write(m: &ReadModel<'_>, state: &mut [u32])
    requires long { length state.old ≡ state_length }
    ensures { state.new ≡ start_state (model_of m.now.image.now) }
{
    state.fill(0);
    for b in 0..m.layout.boxes {
        let (_, words) = state.split_at_mut(1139 * b);
        start_record(m, b, state::first_record(words));
    }
}

// A model is started into the lent words. Refused for the model, then with 10.
#[tactic(auto, using(crate::proofs::StartLaws::starts))]
pub fn start(model: &[u8], state: &mut [u32]) -> Result<(), Refusal>
    ensures answer { answer_in result ≡ (calls.start model.now state.old).answer }
    ensures words { state.new ≡ (calls.start model.now state.old).words }
{
    let m = model::read(model)?.by_fields();
    Rule::Room.fault_if(state.len() != 9112, 0, 0)?;
    write(&m, state);
    Ok(())
}
