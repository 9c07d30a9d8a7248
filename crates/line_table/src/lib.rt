#![tactic(auto)]
// The tests of a line by tables: by operation, which digits, names and children a line may have, and what it uses and binds.
// Bounds of indices and counts stand in the clauses: a type for each bound would be taken apart at every use.
ghost use Rattle.std.specs.Prelude.{◌≡◌, ◌+◌, ◌/◌, ◌%◌, ◌^◌, ◌<◌};
ghost use Rattle.std.specs.Int.Bits.{bit_and, bit_or};
ghost use Rattle.line_table.specs.Table.{op_table, part_number, row};
ghost use Rattle.line_table.specs.LineWords.{first, second, wrong, bound, named};
ghost use Rattle.line_table.specs.Told.{Typed};

pub use records::Kinds;
use records::Op;
use sets::NameNo;

// The tables by operation: the digits that are zero; the names that may not stand first and second; those that are used where they stand there,
// and those that are bound; the marks of the first and the second child.
#[derive(Clone, Copy)]
pub enum Part {
    Zero = 0,
    DeniedFirst = 1,
    DeniedSecond = 2,
    UsedFirst = 3,
    UsedSecond = 4,
    BoundFirst = 5,
    BoundSecond = 6,
    ChildFirst = 7,
    ChildSecond = 8,
}

// One table after another, 16 words each, flat as `op_table` is: nine fields or rows are no shorter. Words that depend on the names are 0 here.
const BY_OPERATION: [u64; 144] = [
    0xffff_ffff_ffc0_c0f0,
    0xff80_ff80_ffc0_c0f0,
    0xffff_ff80_ffc0_c0f0,
    0xffff_ff80_ffc0_c0f0,
    0xffff_ff80_ffc0_c0f0,
    0xffff_ff80_ffc0_c0f0,
    0xffff_ff80_ffc0_c0f0,
    0xffff_ff80_ffc0_c0f0,
    0xffff_ff80_ffc0_c0f0,
    0xffff_ffff_ffff_ffff,
    0xffff_ffff_ffff_ffff,
    0xffff_ffff_ffff_ffff,
    0xffff_ffff_ffff_ffff,
    0xffff_ffff_ffff_ffff,
    0xffff_ffff_ffff_ffff,
    0xffff_ffff_ffff_ffff,
    0xffff_ffff_ffff_fffe,
    0xffff_ffff_ffff_fffe,
    0xffff_ffff_ffff_fffe,
    0,
    0,
    0,
    0,
    0,
    0,
    0xffff_ffff_ffff_ffff,
    0xffff_ffff_ffff_ffff,
    0xffff_ffff_ffff_ffff,
    0xffff_ffff_ffff_ffff,
    0xffff_ffff_ffff_ffff,
    0xffff_ffff_ffff_ffff,
    0xffff_ffff_ffff_ffff,
    0xffff_ffff_ffff_fffe,
    0xffff_ffff_ffff_fffe,
    0xffff_ffff_ffff_fffe,
    0xffff_ffff_ffff_fffe,
    0,
    0,
    0xffff_ffff_ffff_fffe,
    0xffff_ffff_ffff_fffe,
    0xffff_ffff_ffff_fffe,
    0xffff_ffff_ffff_ffff,
    0xffff_ffff_ffff_ffff,
    0xffff_ffff_ffff_ffff,
    0xffff_ffff_ffff_ffff,
    0xffff_ffff_ffff_ffff,
    0xffff_ffff_ffff_ffff,
    0xffff_ffff_ffff_ffff,
    0,
    0,
    0,
    0,
    0,
    0,
    0,
    0,
    0,
    0,
    0,
    0,
    0,
    0,
    0,
    0,
    0,
    0,
    0,
    0,
    0,
    0,
    0,
    0,
    0,
    0,
    0,
    0,
    0,
    0,
    0,
    0,
    0,
    0,
    0,
    0xffff_ffff_ffff_ffff,
    0,
    0,
    0xffff_ffff_ffff_ffff,
    0,
    0,
    0,
    0,
    0,
    0,
    0,
    0,
    0,
    0,
    0,
    0,
    0,
    0,
    0xffff_ffff_ffff_ffff,
    0,
    0,
    0,
    0,
    0,
    0,
    0,
    0,
    0,
    0,
    0,
    0x8000_0000_0000_0000,
    0x8000_0000_0000_0000,
    0x8000_0000_0000_0000,
    0x8000_0000_0000_0000,
    0x8000_0000_0000_0000,
    0x8000_0000_0000_0000,
    0x8000_0000_0000_0000,
    0x8000_0000_0000_0000,
    0,
    0,
    0,
    0,
    0,
    0,
    0,
    0,
    0x8000_0000_0000_0000,
    0,
    0,
    0,
    0,
    0,
    0,
    0,
    0,
    0,
    0,
    0,
    0,
    0,
    0,
];

// The words by operation, with those that depend on the names.
pub fn table(kinds: Kinds) -> [u64; 144]
    ensures { result ≡ op_table kinds.listed kinds.restricted kinds.received kinds.exposed kinds.free }
{
    let mut t = BY_OPERATION;
    t[16 * Part::DeniedFirst as usize + Op::Restriction as usize] = !kinds.restricted;
    t[16 * Part::DeniedFirst as usize + Op::Output as usize] = !kinds.listed;
    t[16 * Part::DeniedFirst as usize + Op::Input as usize] = !kinds.listed;
    t[16 * Part::DeniedFirst as usize + Op::Expose as usize] = !kinds.exposed;
    t[16 * Part::DeniedFirst as usize + Op::Hide as usize] = !kinds.listed;
    t[16 * Part::DeniedFirst as usize + Op::Unhide as usize] = !kinds.listed;
    t[16 * Part::DeniedSecond as usize + Op::Output as usize] = !kinds.listed;
    t[16 * Part::DeniedSecond as usize + Op::Input as usize] = !kinds.received;
    t[16 * Part::UsedFirst as usize + Op::Output as usize] = !kinds.free;
    t[16 * Part::UsedFirst as usize + Op::Input as usize] = !kinds.free;
    t[16 * Part::UsedFirst as usize + Op::Hide as usize] = !kinds.free;
    t[16 * Part::UsedFirst as usize + Op::Unhide as usize] = !kinds.free;
    t[16 * Part::UsedSecond as usize + Op::Output as usize] = !kinds.free;
    t
}

// The word of a table for the operation of a line's first word w: usize has no From<u64>.
#[tactic(auto, unfolding(crate::specs::Table::row))]
pub fn at(t: &[u64; 144], p: Part, w: u64) -> u64
    ensures { result ≡ row t.now (part_number p) w }
{
    t[16 * p as usize + (w % 16) as usize]
}

// The set of the name of the low six digits: it takes them of what it gets, so a division is enough.
pub fn one(n: u64) -> u64
    ensures { result ≡ 2 ^ (n % 64) }
{
    1 << (n % 64)
}

// Wrong digits of a line by itself, but for its type.
#[tactic(auto, unfolding(crate::specs::LineWords::wrong, crate::specs::LineWords::first, crate::specs::LineWords::second))]
pub fn wrong_digits(t: &[u64; 144], w: u64) -> u64
    ensures { result ≡ wrong t.now w }
{
    (w & at(t, Part::Zero, w))
        | (one(w / 0x100) & at(t, Part::DeniedFirst, w))
        | (one(w / 0x1_0000) & at(t, Part::DeniedSecond, w))
}

// The names of a line that one table has of its first name and another of its second.
#[tactic(auto, unfolding(crate::specs::LineWords::first, crate::specs::LineWords::second))]
fn names(t: &[u64; 144], p: Part, q: Part, w: u64) -> u64
    ensures { result ≡ bit_or (bit_and (first w) (row t.now (part_number p) w)) (bit_and (second w) (row t.now (part_number q) w)) }
{
    (one(w / 0x100) & at(t, p, w)) | (one(w / 0x1_0000) & at(t, q, w))
}

// The names that a line binds.
#[tactic(auto, unfolding(crate::specs::LineWords::bound))]
pub fn bound_names(t: &[u64; 144], w: u64) -> u64
    ensures { result ≡ bound t.now w }
{
    names(t, Part::BoundFirst, Part::BoundSecond, w)
}

// The names that a line uses and that are not free, but for those of its type.
#[tactic(auto, unfolding(crate::specs::LineWords::named))]
pub fn used_names(t: &[u64; 144], w: u64) -> u64
    ensures { result ≡ named t.now w }
{
    names(t, Part::UsedFirst, Part::UsedSecond, w)
}

// Wrong digits of a type: only an expose has one, and its names are free or bound above.
#[tactic(auto, using(crate::proofs::TypeLaws::typed_laws))]
pub fn typed(all: u64, rest: u64, w: u64, names: u64, v: u64) -> u64
    ensures { Typed all rest w names v result }
{
    if w % 16 == Op::Expose as u64 {
        if records::names::type_fits(all, NameNo(w.to_le_bytes()[1]), names) {
            (names & rest) & !v
        } else {
            1
        }
    } else {
        names
    }
}
