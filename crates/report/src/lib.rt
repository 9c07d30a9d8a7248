#![tactic(auto)]
// The line that the checking program writes for a verdict. A place is a usize, from which u64 has no From.
// That there is room is a clause of each function, by its own length: a text that might be full would have every caller answer for it.
ghost use Rattle.std.specs.Prelude.{◌≡◌, ◌≤◌, ◌+◌, ◌++◌, length};
ghost use Rattle.definitions.specs.Program.{bytes_of, decimal, three_numbers, four_numbers, verdict_line};
ghost use Rattle.analysis.specs.Answers.{verdict_in};

use analysis::NotAccepted;
use refusals::Refusal;
use text::Text;

pub mod text;

// A number and a space.
#[tactic(auto, using(crate::proofs::Digits::digits), unfolding(definitions::specs::Program::bytes_of))]
fn push_spaced(t: &mut Text, n: u64)
    requires { length t.old + 21 ≤ 96 }
    ensures text { t.new ≡ t.old ++ decimal n ++ bytes_of " " }
    ensures size { length t.new ≤ length t.old + 21 }
{
    t.push_decimal(n);
    t.push(b' ');
}

// Three numbers with single spaces between, and a newline.
#[tactic(auto, using(crate::proofs::Digits::digits), unfolding(definitions::specs::Program::three_numbers, definitions::specs::Program::bytes_of))]
fn push_three(t: &mut Text, a: u64, b: u64, c: u64)
    requires { length t.old + 63 ≤ 96 }
    ensures text { t.new ≡ t.old ++ three_numbers a b c }
    ensures size { length t.new ≤ length t.old + 63 }
{
    push_spaced(t, a);
    push_spaced(t, b);
    t.push_decimal(c);
    t.push(b'\n');
}

// One number more, before the three.
#[tactic(auto, unfolding(definitions::specs::Program::four_numbers))]
fn push_four(t: &mut Text, a: u64, b: u64, c: u64, d: u64)
    requires { length t.old + 84 ≤ 96 }
    ensures text { t.new ≡ t.old ++ four_numbers a b c d }
    ensures size { length t.new ≤ length t.old + 84 }
{
    push_spaced(t, a);
    push_three(t, b, c, d);
}

// A refusal's three numbers, behind what is refused.
fn push_refusal(t: &mut Text, what: &[u8], r: Refusal)
    requires { length t.old + length what.now + 63 ≤ 96 }
    ensures text { t.new ≡ t.old ++ what.now ++ three_numbers r.number r.place r.second }
    ensures size { length t.new ≤ length t.old + length what.now + 63 }
{
    t.push_all(what);
    push_three(t, u64::from(r.number), r.place as u64, r.second as u64);
}

#[tactic(auto, unfolding(definitions::specs::Program::verdict_line, definitions::specs::Program::bytes_of))]
pub fn line(v: Result<(), NotAccepted>) -> Text
    ensures text { result ≡ verdict_line (verdict_in v) }
    ensures size { length result ≤ 96 }
{
    let mut t = Text::new();
    match v {
        Ok(()) => t.push_all(b"accepted\n"),
        Err(NotAccepted::Breaks(x)) => {
            t.push_all(b"clause ");
            push_four(
                &mut t,
                u64::from(x.clause),
                x.boxno as u64,
                x.place as u64,
                u64::from(x.name.0),
            );
        }
        Err(NotAccepted::RefusedModel(r)) => push_refusal(&mut t, b"refused model ", r),
        Err(NotAccepted::RefusedEstimate(r)) => push_refusal(&mut t, b"refused estimate ", r),
    }
    t
}
