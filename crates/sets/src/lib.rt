#![tactic(auto)]
// Sets of names: a u64 has name n where its binary digit n is 1. No call but `union_of` asks anything of its arguments.
ghost use Rattle.std.specs.Prelude.{◌≡◌, ℕ, ◌<◌, MatchOption};
ghost use Rattle.definitions.specs.Bounded.{◌and◌, ◌or◌, ◌is◌};
ghost use Rattle.definitions.specs.Sets as names;
ghost use Rattle.sets.specs.Each.{TakesMembers, UnionOfEach};
ghost use Rattle.sets.specs.Lowest.{lowest_of, WithoutLowest};

// The paper's "name's number". A held name, a number with a stamp, is another type.
#[derive(Clone, Copy, Debug, PartialEq, Eq)]
pub struct NameNo(pub u8);

// Name n is in s: never where n is above 63.
pub fn contains(s: u64, n: NameNo) -> bool
    ensures { result ≡ names.has s n.0 }
{
    if n.0 < 64 { (s >> n.0) & 1 == 1 } else { false }
}

// Every member of a is in b.
pub fn is_subset(a: u64, b: u64) -> bool
    ensures { result ≡ names.within a b }
{
    a & !b == 0
}

// a and b share a member.
pub fn intersects(a: u64, b: u64) -> bool
    ensures { result ≡ names.meets a b }
{
    a & b != 0
}

// The lowest member of s. A digit's number is a u32, from which u8 has no From.
pub fn lowest(s: u64) -> Option<NameNo>
    ensures { MatchOption result (s ≡ 0) (λ n. (0 < s) × (n.0 ≡ lowest_of s)) }
{
    if s == 0 {
        None
    } else {
        Some(NameNo(u64::trailing_zeros(s) as u8))
    }
}

// s without its lowest member.
pub fn without_lowest(s: u64) -> u64
    ensures { WithoutLowest s result }
{
    s & s.wrapping_sub(1)
}

// s with name n put in: s itself where n is above 63.
pub fn insert(s: u64, n: NameNo) -> u64
    ensures { (m : ℕ) → m < 64 → names.has result m ≡ (names.has s m or n.0 is m) }
{
    if n.0 < 64 { s | (1 << n.0) } else { s }
}

// The members of a and those of b.
pub fn union(a: u64, b: u64) -> u64
    ensures { (m : ℕ) → names.has result m ≡ (names.has a m or names.has b m) }
{
    a | b
}

// The members that s and t share.
pub fn intersection(s: u64, t: u64) -> u64
    ensures { (m : ℕ) → names.has result m ≡ (names.has s m and names.has t m) }
{
    s & t
}

// How many members s has.
pub fn count(s: u64) -> u32
    ensures { result ≡ names.size s }
{
    u64::count_ones(s)
}

// The members of a set, ascending: what is left of it.
#[derive(Clone, Copy)]
pub struct Ascending(pub u64);

impl Iterator for Ascending {
    ghost use Rattle.std.specs.Iterator.{at_most};
    ghost use Rattle.sets.specs.Ascending.{NextMember};

    type Item = NameNo;

    ghost next_gives = { NextMember };

    ghost remaining = { λ s. at_most s.0 };

    fn next(&mut self) -> Option<NameNo> {
        let n = lowest(self.0)?;
        self.0 = without_lowest(self.0);
        Some(n)
    }
}

// The union of what f gives at each member of s.
#[tactic(auto, using(crate::proofs::Each::unions))]
pub fn union_of<F: Fn(NameNo) -> u64>(s: u64, f: F) -> u64
    requires { TakesMembers (F.pre f) s }
    ensures { UnionOfEach (F.post f) s result }
{
    let mut v: u64 = 0;
    for n in Ascending(s) {
        v = union(v, f(n));
    }
    v
}
