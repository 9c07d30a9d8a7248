// The check's arithmetic, modulo 2^64 on purpose, and the check of 63 words in four chains.
// Bounds of indices and counts stand in the clauses: a type for each bound would be taken apart at every use.
ghost use Rattle.std.specs.Prelude.{◌≡◌, ◌+◌, ◌*◌, ◌%◌, ◌^◌, ◌≤◌, length};
ghost use Rattle.definitions.specs.Words.{word_at};
ghost use Rattle.definitions.specs.Check.{check_of};

// 31 x: five doublings, and x off. No product: docs/DECISIONS.md, "31^4 in a chain", has the reason.
#[tactic(auto, using(crate::proofs::Modulo::thirty_one))]
fn times31(x: u64) -> u64
    ensures { result ≡ (31 * x) % 2 ^ 64 }
{
    let two = x.wrapping_add(x);
    let four = two.wrapping_add(two);
    let eight = four.wrapping_add(four);
    let sixteen = eight.wrapping_add(eight);
    let all = sixteen.wrapping_add(sixteen);
    all.wrapping_sub(x)
}

// One word more: 31 c + w.
fn step(c: u64, w: u64) -> u64
    ensures { result ≡ (31 * c + w) % 2 ^ 64 }
{
    times31(c).wrapping_add(w)
}

// The word at a place added to a chain: 31^4 c + w, since three words of the other chains stand between two of its own.
#[tactic(auto, using(crate::proofs::Loops::sums))]
fn chain_step(c: u64, s: &[u8], p: usize) -> u64
    requires { p + 8 ≤ length s.now }
    ensures { result ≡ (31 ^ 4 * c + word_at s.now p) % 2 ^ 64 }
{
    step(times31(times31(times31(c))), words::word(s, p))
}

// The check of a block's first 63 words. The 1 of the start counts as a word before them; of these 64 each chain has every fourth, so that
// no chain waits for another, and three steps join the chains: 31 (31 (31 a + b) + c) + d.
#[tactic(auto, using(crate::proofs::Loops::sums))]
pub fn by_chains(block: &[u8; 512]) -> u64
    ensures { result ≡ check_of block.now }
{
    let mut a: u64 = 1;
    let mut b = words::word(block, 0);
    let mut c = words::word(block, 8);
    let mut d = words::word(block, 16);
    // By places: each turn reads four words where they stand.
    for i in 0..15 {
        let p = 24 + 32 * i;
        a = chain_step(a, block, p);
        b = chain_step(b, block, p + 8);
        c = chain_step(c, block, p + 16);
        d = chain_step(d, block, p + 24);
    }
    step(step(step(a, b), c), d)
}
