#![tactic(auto)]
// Little-endian numbers at a place of a slice. Each call requires the bytes that it reads.
// Bounds of indices and counts stand in the clauses: a type for each bound would be taken apart at every use.
ghost use Rattle.std.specs.Prelude.{◌≡◌, ◌+◌, ◌*◌, ◌<◌, ◌≤◌, length};
ghost use Rattle.definitions.specs.Words.{byte_at, word_at};

#[tactic(auto, unfolding(definitions::specs::Words::byte_at))]
pub fn byte(s: &[u8], at: usize) -> usize
    requires { at < length s.now }
    ensures { result ≡ byte_at s.now at }
{
    usize::from(s[at])
}

// Two bytes. half and word differ in length: the library has `from_le_bytes` for each.
#[tactic(auto, unfolding(definitions::specs::Words::byte_at))]
pub fn half(s: &[u8], at: usize) -> usize
    requires { at + 2 ≤ length s.now }
    ensures { result ≡ byte_at s.now at + 256 * byte_at s.now (at + 1) }
{
    usize::from(u16::from_le_bytes([s[at], s[at + 1]]))
}

// Eight bytes by place: the compiler makes one load of them.
#[tactic(auto, unfolding(definitions::specs::Words::word_at))]
pub fn word(s: &[u8], at: usize) -> u64
    requires { at + 8 ≤ length s.now }
    ensures { result ≡ word_at s.now at }
{
    u64::from_le_bytes([
        s[at],
        s[at + 1],
        s[at + 2],
        s[at + 3],
        s[at + 4],
        s[at + 5],
        s[at + 6],
        s[at + 7],
    ])
}
