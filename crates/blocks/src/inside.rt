// A block: its heading, its data words and its check. Who reads an image tests once that the block is there.
// Bounds of indices and counts stand in the clauses: a type for each bound would be taken apart at every use.
ghost use Rattle.std.specs.Prelude.{◌≡◌, ◌+◌, ◌*◌, ◌<◌, ◌≤◌, length};
ghost use Rattle.definitions.specs.Bounded.{◌and◌, ◌is◌};
ghost use Rattle.definitions.specs.Words.{block_of, data_word};
ghost use Rattle.definitions.specs.Check.{check_of, stored_check};
ghost use Rattle.definitions.specs.ReadModel.{clear_from};
ghost use Rattle.blocks.specs.Answers.{heading_of, UnionOver};

// The kinds of blocks: a model's head, its sites and its lines; an estimate's tables rho, eps and kap.
#[derive(Clone, Copy, PartialEq, Eq)]
pub enum BlockKind {
    Head = 1,
    Sites = 2,
    Lines = 3,
    Rho = 4,
    Eps = 5,
    Kap = 6,
}

// Bytes 0 to 7 of a block; spare is bytes 6 and 7. The kind is the image's byte, and may be any.
#[derive(Clone, Copy, Debug, PartialEq, Eq)]
pub struct Heading {
    pub number: usize,
    pub kind: usize,
    pub place: usize,
    pub count: usize,
    pub spare: usize,
}

// Block k of an image that has it whole. As state::record, of another type and length: a third function under both would be no shorter, since each
// contract is its own definition's.
#[tactic(auto, using(crate::proofs::BlockLaws::blocks))]
pub fn block(image: &[u8], k: usize) -> &[u8; 512]
    requires { 512 * (k + 1) ≤ length image.now }
    ensures { result.now ≡ block_of image.now k }
{
    image[512 * k..].first_chunk::<512>().unwrap()
}

#[tactic(auto, unfolding(definitions::specs::Words::number_of, definitions::specs::Words::kind_of_block, definitions::specs::Words::box_of, definitions::specs::Words::count_of, definitions::specs::Words::spare_of))]
pub fn heading_of(block: &[u8; 512]) -> Heading
    ensures { result ≡ heading_of block.now }
{
    Heading {
        number: words::half(block, 0),
        kind: words::byte(block, 2),
        place: words::byte(block, 3),
        count: words::half(block, 4),
        spare: words::half(block, 6),
    }
}

// The heading is that of block k, of a kind and a box, and bytes 6 and 7 are zero. The kind asked for is any number, as a heading's is: a
// BlockKind would be narrower.
pub fn heading_matches(h: Heading, k: usize, kind: usize, place: usize) -> bool
    ensures { result ≡ (h.number is k and h.kind is kind and h.place is place and h.spare is 0) }
{
    (h.number == k) & (h.kind == kind) & (h.place == place) & (h.spare == 0)
}

#[tactic(auto, unfolding(definitions::specs::Words::data_word))]
pub fn data_word(block: &[u8; 512], i: usize) -> u64
    requires { i < 62 }
    ensures { result ≡ data_word block.now i }
{
    words::word(block, 8 + 8 * i)
}

// The union of the data words from one number up to another: no word where the first is not below the second.
#[tactic(auto, using(crate::proofs::Unions::unions))]
pub fn union_of_words(block: &[u8; 512], from: usize, to: usize) -> u64
    requires { to ≤ 62 }
    ensures { UnionOver (data_word block.now) from to result }
{
    (from..to).fold(0, |w, i| w | data_word(block, i))
}

// Data words from a number on are zero: joined, and tested once.
#[tactic(auto, using(crate::proofs::BlockLaws::blocks))]
pub fn clear_from(block: &[u8; 512], from: usize) -> bool
    ensures { result ≡ clear_from from block.now }
{
    union_of_words(block, from, 62) == 0
}

// The check that a block ought to have.
pub fn check(block: &[u8; 512]) -> u64
    ensures { result ≡ check_of block.now }
{
    crate::sums::by_chains(block)
}

// The check that a block stores is the one that it ought to have.
#[tactic(auto, using(crate::proofs::BlockLaws::blocks))]
pub fn check_matches(block: &[u8; 512]) -> bool
    ensures { result ≡ (check_of block.now is stored_check block.now) }
{
    check(block) == words::word(block, 504)
}
