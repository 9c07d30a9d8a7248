// The blocks of an estimate, each a table of sets: refusals 2 to 5, and their first over the boxes.
// The image is still being read, so each function asks for the blocks that it reads: an Estimate is made where none is refused.
// Bounds of indices and counts stand in the clauses: a type for each bound would be taken apart at every use.
ghost use Rattle.std.specs.Prelude.{◌≡◌, ◌+◌, ◌*◌, ◌≤◌, min, length};
ghost use Rattle.definitions.specs.Sets.{no_bit_past};
ghost use Rattle.definitions.specs.Bounded.{first_below};
ghost use Rattle.definitions.specs.Words.{data_word};
ghost use Rattle.definitions.specs.ReadEstimate.{sets_fit, is_set, table_fault};
ghost use Rattle.refusals.specs.Answers.{answer_in};
ghost use Rattle.blocks.specs.Answers.{kind_number};
ghost use Rattle.estimate.specs.Blocks.{last_sets, words_fit, box_tables_fault};

use blocks::inside::BlockKind;
use refusals::{Refusal, Rule};

// The words that the names have: one each, of words 0 to 59.
fn name_words(names: usize) -> usize
    ensures { result ≡ min names 60 }
{
    names.min(60)
}

// Where the last sets begin: kind 5 has two, and other kinds none.
#[tactic(auto, using(crate::proofs::Ranges::words))]
fn last_sets(asked: BlockKind) -> usize
    ensures { result ≡ last_sets (kind_number asked) }
{
    if asked == BlockKind::Eps { 60 } else { 62 }
}

#[tactic(auto, using(crate::proofs::Ranges::words))]
fn no_bit_past(names: usize, w: u64) -> bool
    ensures { result ≡ no_bit_past names w }
{
    64 <= names || w >> names == 0
}

// The words of a block from one number up to another have no bit past n: tested once, on their union.
#[tactic(auto, using(crate::proofs::Ranges::union_fits))]
fn words_fit(block: &[u8; 512], from: usize, to: usize, n: usize) -> bool
    requires { to ≤ 62 }
    ensures { result ≡ words_fit n from to (data_word block.now) }
{
    no_bit_past(n, blocks::inside::union_of_words(block, from, to))
}

// The names' sets, the words between, which are zero, and the last sets.
#[tactic(auto, using(crate::proofs::Ranges::words))]
fn sets_fit(block: &[u8; 512], names: usize, asked: BlockKind) -> bool
    ensures { result ≡ sets_fit names (is_set names (kind_number asked)) block.now }
{
    let named = name_words(names);
    let last = last_sets(asked);
    words_fit(block, 0, named, names)
        & words_fit(block, named, last, 0)
        & words_fit(block, last, 62, names)
}

// Block k, where the order asks for a kind and a box.
#[tactic(auto, using(crate::proofs::Laws::tables))]
pub fn table(
    image: &[u8],
    names: usize,
    k: usize,
    asked: BlockKind,
    place: usize,
) -> Result<(), Refusal>
    requires { 512 * (k + 1) ≤ length image.now }
    ensures { answer_in result ≡ table_fault image.now names k (kind_number asked) place }
{
    let block = blocks::inside::block(image, k);
    block_faults::headed(block, k, asked, place)?;
    let h = blocks::inside::heading_of(block);
    Rule::Count.fault_if(h.count != 0, k, 0)?;
    Rule::Stray.fault_if(!sets_fit(block, names, asked), k, 0)
}

// Box b's two blocks.
#[tactic(auto, using(refusals::proofs::Answers::answers), unfolding(crate::specs::Blocks::box_tables_fault, definitions::specs::Estimate::eps_block, definitions::specs::Estimate::kap_block))]
fn box_tables(image: &[u8], names: usize, b: usize) -> Result<(), Refusal>
    requires { 512 * (3 + 2 * b) ≤ length image.now }
    ensures { answer_in result ≡ box_tables_fault image.now names b }
{
    table(image, names, 1 + 2 * b, BlockKind::Eps, b)?;
    table(image, names, 2 + 2 * b, BlockKind::Kap, b)
}

#[tactic(auto, using(refusals::proofs::Answers::answers))]
pub fn each_box(image: &[u8], names: usize, boxes: usize) -> Result<(), Refusal>
    requires { 512 * (1 + 2 * boxes) ≤ length image.now }
    ensures { answer_in result ≡ first_below boxes (box_tables_fault image.now names) }
{
    for b in 0..boxes {
        box_tables(image, names, b)?;
    }
    Ok(())
}
