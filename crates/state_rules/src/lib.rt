#![tactic(auto, using(crate::proofs::StateLaws::state_rules))]
// The state rules: whether words are a state, in order, of a model that has been read.
// A state is a slice, as C lends it, so its length, its last stamps (`StampsFit`) and what limits are for it (`LimitsOf`) are clauses.
// Bounds of indices and counts stand in the clauses: a type for each bound would be taken apart at every use.
ghost use Rattle.std.specs.Prelude.{◌≡◌, ◌*◌, ◌≤◌, length};
ghost use Rattle.definitions.specs.Bounded.{all_below};
ghost use Rattle.definitions.specs.Record as words;
ghost use Rattle.definitions.specs.Image.{model_of};
ghost use Rattle.definitions.specs.StateRules.{state_fits};
ghost use Rattle.held_limits.specs.Limits.{LimitsOf, StampsFit};
ghost use Rattle.box_records.specs.Rules.{clear_between};
ghost use Rattle.state_rules.specs.Records.{record_fits_at};

use box_records::Rules;
use held_limits::{Limit, NO_LIMIT};
use model::ReadModel;
use records::Lines;

// The records of the model's boxes, by a box's number, at which layout and state are read; `up` is written at each turn.
fn records_fit(m: &ReadModel<'_>, limits: &[Limit; 64], state: &[u32]) -> bool
    requires stamps { StampsFit state.now m.now.layout.boxes }
    requires limits { LimitsOf (model_of m.now.image.now) (words.last_stamps state.now) limits.now }
    ensures { result ≡ all_below m.now.layout.boxes (record_fits_at (model_of m.now.image.now) state.now) }
{
    let subjects = sets::union(m.layout.kinds.free, m.layout.kinds.exposed);
    let mut up = [0; 124];
    for b in 0..m.layout.boxes {
        let place = m.layout.each[b];
        let r = state::record(state, b);
        let used = Lines {
            image: m.image,
            k: place.at as usize,
            n: box_records::lines_used(r, place.lines as usize),
        };
        box_reach::above(used, &mut up);
        let rules = Rules {
            limits,
            subjects,
            lines: place.lines as usize,
            up: &up,
        };
        if !box_records::record_fits(&rules, r) {
            return false;
        }
    }
    true
}

// The records of the boxes that the model lacks are zero. Each is a loop of one length, which the compiler unrolls.
fn missing_clear(state: &[u32], boxes: usize) -> bool
    requires long { length state.now ≡ 9112 }
    requires few { boxes ≤ 8 }
    ensures { result ≡ clear_between state.now (1139 * boxes) 9112 }
{
    (boxes..8).all(|b| box_records::run_clear(state::record(state, b), 0, 1139))
}

// The words, however many, obey the state rules of a model.
pub fn fits(m: &ReadModel<'_>, state: &[u32]) -> bool
    ensures { result ≡ state_fits (model_of m.now.image.now) state.now }
{
    if state.len() != 9112 {
        return false;
    }
    if !held_limits::stamps_fit(state, m.layout.boxes) {
        return false;
    }
    let mut limits = [NO_LIMIT; 64];
    held_limits::set_limits(&mut limits, &m.layout, state);
    records_fit(m, &limits, state) && missing_clear(state, m.layout.boxes)
}
