// A move inside a box that is allowed, made in the box's record. The record is in order only before the move, so its box's model and number
// are parameters.
// A child becomes a word by `as`: u32 has no From<usize>.
// Bounds of indices and counts stand in the clauses: a type for each bound would be taken apart at every use.
ghost use Rattle.std.specs.Prelude.{◌≡◌, ◌≢◌, ◌+◌, ◌-◌, ◌≤◌, ◌∷◌};
ghost use Rattle.definitions.specs.Record as words;
ghost use Rattle.definitions.specs.Start.{type_words};
ghost use Rattle.definitions.specs.Moves as moves;
ghost use Rattle.lookups.specs.Ready.{kinds_in, box_in, BoxReady};
ghost use Rattle.lookups.specs.Inside.{inside_outcome};
ghost use Rattle.state.specs.Kinds.{kind_number};
ghost use Rattle.making.specs.Left.{IsMade, Spreads, Stamps, Turns, Receives};
ghost use Rattle.making.specs.Exposed.{NamesHeld, SiteRoom};

use crate::expose::append_site;
use lookups::{thread_line, value};
use model::ReadModel;
use records::Line;
use state::edits;
use state::kinds::Kind;

// The thread goes on to its line's first child, and a copy of it to the second.
fn spread(r: &mut [u32; 1139], t: usize, l: Line)
    requires { Spreads r.old t l }
    ensures { r.new ≡ words.push_thread (words.put_thread r.old t (words.goto (words.thread r.old t) l.child1)) (words.goto (words.thread r.old t) l.child2) }
{
    let first = l.child1 as u32;
    let second = l.child2 as u32;
    edits::set_line(r, t, first);
    edits::append_thread(r, t, second);
}

// The thread binds its line's name to a held name with the next stamp, and goes on.
fn new(r: &mut [u32; 1139], t: usize, l: Line)
    requires { Stamps r.old t l }
    ensures { r.new ≡ words.put_thread (words.set_stamp r.old (words.stamp r.old + 1)) t (words.goto (words.bind (words.thread r.old t) l.name1.0 (words.held l.name1.0 (words.stamp r.old + 1))) l.child1) }
{
    let s = state::stamp(r) + 1;
    let v = state::stamped(l.name1, s);
    edits::set_stamp(r, s);
    edits::bind(r, t, l.name1, v);
    edits::set_line(r, t, l.child1 as u32);
}

// A site is appended whose subject is the line's name with the next stamp; the thread binds it and goes on. It ends as `new` does: calling it would
// want that a site appended and a thread changed commute.
fn expose(model: &ReadModel<'_>, r: &mut [u32; 1139], t: usize, l: Line)
    requires stamps { Stamps r.old t l }
    requires names { NamesHeld model.now.image.now r.old t l.names }
    requires room { SiteRoom r.old }
    ensures { r.new ≡ words.push_site (words.put_thread (words.set_stamp r.old (words.stamp r.old + 1)) t (words.goto (words.bind (words.thread r.old t) l.name1.0 (words.held l.name1.0 (words.stamp r.old + 1))) l.child1)) (words.held l.name1.0 (words.stamp r.old + 1) ∷ 0 ∷ type_words (moves.value_in (kinds_in model.now) (words.thread r.old t)) l.names) }
{
    let s = state::stamp(r) + 1;
    let v = state::stamped(l.name1, s);
    append_site(model.image, r, t, v, l.names);
    edits::set_stamp(r, s);
    edits::bind(r, t, l.name1, v);
    edits::set_line(r, t, l.child1 as u32);
}

// The site whose subject is the name's held name is turned from shown (0) to hidden, or from hidden (1) to shown; the thread goes on.
// before is the record's word.
fn turn(model: &ReadModel<'_>, r: &mut [u32; 1139], t: usize, l: Line, before: u32)
    requires turns { Turns model.now r.old t l before }
    requires flag { before ≤ 1 }
    ensures { r.new ≡ words.put_site (words.put_thread r.old t (words.goto (words.thread r.old t) l.child1)) (moves.at (moves.site_with r.old (moves.value_in (kinds_in model.now) (words.thread r.old t) l.name1.0) before)) (words.set_flag (words.site r.old (moves.at (moves.site_with r.old (moves.value_in (kinds_in model.now) (words.thread r.old t) l.name1.0) before))) (1 - before)) }
{
    let v = value(model.image, r, t, l.name1);
    let i = lookups::site_with(r, v, before).unwrap();
    edits::set_line(r, t, l.child1 as u32);
    edits::set_flag(r, i, 1 - before);
}

// The first thread binds what the second sends; both go on.
fn intra(model: &ReadModel<'_>, r: &mut [u32; 1139], t: usize, l: Line, u: usize, k: Line)
    requires { Receives model.now r.old t l u k }
    ensures { r.new ≡ words.put_thread (words.put_thread r.old t (words.goto (words.bind (words.thread r.old t) l.name2.0 (moves.value_in (kinds_in model.now) (words.thread r.old u) k.name2.0)) l.child1)) u (words.goto (words.thread r.old u) k.child1) }
{
    let v = value(model.image, r, u, k.name2);
    edits::bind(r, t, l.name2, v);
    edits::set_line(r, t, l.child1 as u32);
    edits::set_line(r, u, k.child1 as u32);
}

// A move by its thread's line: of each kind but a drop, which reads no line and is made before, and an inter, which is not made in a box.
fn go_on(model: &ReadModel<'_>, b: usize, r: &mut [u32; 1139], kind: Kind, t: usize, u: usize)
    requires ready { BoxReady model.now b r.old }
    requires made { IsMade (inside_outcome (kinds_in model.now) (box_in model.now b) r.old (kind_number kind) t u) }
    requires stays { kind_number kind ≢ 1 }
    ensures { inside_outcome (kinds_in model.now) (box_in model.now b) r.old (kind_number kind) t u ≡ moves.made r.new }
{
    let l = thread_line(model, b, r, t);
    match kind {
        Kind::Spread => spread(r, t, l),
        Kind::New => new(r, t, l),
        Kind::Copy => edits::append_thread(r, t, l.child1 as u32),
        Kind::Expose => expose(model, r, t, l),
        Kind::Hide => turn(model, r, t, l, 0),
        Kind::Unhide => turn(model, r, t, l, 1),
        Kind::Intra => {
            let k = thread_line(model, b, r, u);
            intra(model, r, t, l, u, k);
        }
        Kind::Drop | Kind::Inter => unreachable!(),
    }
}

// A move of a kind inside a box, made in its box's record.
pub fn make(model: &ReadModel<'_>, b: usize, r: &mut [u32; 1139], kind: Kind, t: usize, u: usize)
    requires ready { BoxReady model.now b r.old }
    requires made { IsMade (inside_outcome (kinds_in model.now) (box_in model.now b) r.old (kind_number kind) t u) }
    ensures { inside_outcome (kinds_in model.now) (box_in model.now b) r.old (kind_number kind) t u ≡ moves.made r.new }
{
    match kind {
        Kind::Drop => edits::remove_thread(r, t),
        _ => go_on(model, b, r, kind, t, u),
    }
}
