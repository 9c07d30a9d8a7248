#![tactic(auto)]
// Whether a name is in a set, and whether one set lies within another: or else the name that is missing. No call asks anything of its
// arguments.
ghost use Rattle.std.specs.Prelude.{◌≡◌};
ghost use Rattle.definitions.specs.Sets as names;
ghost use Rattle.subsets.specs.Within.{within_in};

use sets::NameNo;

// n is in s, or n is what is missing.
pub fn absent(s: u64, n: NameNo) -> Result<(), NameNo>
    ensures { within_in result ≡ names.absent s n.0 }
{
    if sets::contains(s, n) { Ok(()) } else { Err(n) }
}

// Every member of a is in b, or the lowest that is not.
#[tactic(auto, using(crate::proofs::Lacking::casts))]
pub fn missing(a: u64, b: u64) -> Result<(), NameNo>
    ensures { within_in result ≡ names.missing a b }
{
    match sets::lowest(a & !b) {
        Some(n) => Err(n),
        None => Ok(()),
    }
}
