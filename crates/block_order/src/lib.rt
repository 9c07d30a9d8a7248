#![tactic(auto, using(crate::proofs::Faults::order))]
// Refusals 1 to 5: the length, and the blocks in the order that the paper asks for.
// Bounds of indices and counts stand in the clauses: a type for each bound would be taken apart at every use.
ghost use Rattle.std.specs.Prelude.{◌≡◌, ◌+◌, ◌<◌, ◌≤◌, IfOk};
ghost use Rattle.std.proofs.Math.Option.{none};
ghost use Rattle.definitions.specs.Bounded.{or_else};
ghost use Rattle.definitions.specs.Words.{block_of, count_of};
ghost use Rattle.definitions.specs.Image.{line_blocks, sites_block};
ghost use Rattle.definitions.specs.ReadModel.{box_fault, length_fault, blocks_fault};
ghost use Rattle.refusals.specs.Answers.{answer_in};
ghost use Rattle.block_order.specs.BlockOrder.{lines_faults, boxes_fault};

pub use blocks::Blocks;
use refusals::{Refusal, Rule};

// An image whose length and blocks are right.
#[derive(Clone, Copy)]
pub struct RightBlocks<'a> {
    pub blocks: Blocks<'a>,
    pub ghost right: { blocks_fault blocks.image.now ≡ none },
}

pub fn length_fault(image: &[u8]) -> Result<(), Refusal>
    ensures { answer_in result ≡ length_fault image.now }
{
    let n = image.len();
    Rule::Length.fault_if(n % 512 != 0 || n < 512 || 20992 < n, 0, 0)
}

// The image's blocks, where its length is right.
pub fn whole(image: &[u8]) -> Result<Blocks<'_>, Refusal>
    ensures answer { answer_in result ≡ length_fault image.now }
    ensures image { IfOk result (λ b. b.image.now ≡ image.now) }
{
    length_fault(image)?;
    Ok(Blocks { image })
}

// The image's blocks, where its length and they are right; else the first refusal of 1 to 5.
pub fn read(image: &[u8]) -> Result<RightBlocks<'_>, Refusal>
    ensures answer { answer_in result ≡ or_else (length_fault image.now) (blocks_fault image.now) }
    ensures image { IfOk result (λ b. b.blocks.image.now ≡ image.now) }
{
    let blocks = whole(image)?;
    blocks_fault(blocks)?;
    Ok(RightBlocks { blocks })
}

// How many records block k counts: none where the image ends before it.
pub fn count(blocks: Blocks<'_>, k: usize) -> usize
    ensures { result ≡ count_of (block_of blocks.entry.image.now k) }
{
    if let Some(block) = blocks::block(blocks.image, k) {
        let h = blocks::inside::heading_of(block);
        h.count
    } else {
        0
    }
}

// How many blocks a box's lines take, the first being block k: one with fewer than 31 records is the last, and so is the fourth. Three tests in a
// row: a loop over them is no shorter.
pub fn line_blocks(blocks: Blocks<'_>, k: usize) -> usize
    requires { k ≤ 100 }
    ensures { result ≡ line_blocks 4 blocks.entry.image.now k }
{
    if count(blocks, k) < 31 {
        1
    } else if count(blocks, k + 1) < 31 {
        2
    } else if count(blocks, k + 2) < 31 {
        3
    } else {
        4
    }
}

// All blocks of a box's lines, the first being block k.
fn lines_blocks(blocks: Blocks<'_>, b: usize, k: usize) -> Result<(), Refusal>
    requires { k ≤ 100 }
    ensures { answer_in result ≡ lines_faults blocks.entry.image.now b k }
{
    let n = line_blocks(blocks, k);
    for j in 0..n {
        block_faults::lines_block(blocks.image, k + j, b, j)?;
    }
    Ok(())
}

// Box b, whose sites are to be block k.
fn box_blocks(blocks: Blocks<'_>, b: usize, k: usize) -> Result<(), Refusal>
    requires few { k < 100 }
    requires at { k ≡ sites_block blocks.image.now b }
    ensures { answer_in result ≡ box_fault blocks.entry.image.now b }
{
    block_faults::sites_block(blocks.image, k, b)?;
    lines_blocks(blocks, b, k + 1)
}

// The blocks of so many boxes, and what is left over.
fn boxes_blocks(blocks: Blocks<'_>, boxes: usize) -> Result<(), Refusal>
    requires { boxes ≤ 8 }
    ensures { answer_in result ≡ boxes_fault blocks.entry.image.now boxes }
{
    let mut k = 1;
    for b in 0..boxes {
        box_blocks(blocks, b, k)?;
        k += 1 + line_blocks(blocks, k + 1);
    }
    block_faults::left_over(blocks, k)
}

pub fn blocks_fault(blocks: Blocks<'_>) -> Result<(), Refusal>
    ensures { answer_in result ≡ blocks_fault blocks.entry.image.now }
{
    block_faults::head_block(blocks.image)?;
    let head = blocks::inside::block(blocks.image, 0);
    let boxes = blocks::inside::data_word(head, 1);
    // A word of the image: usize has no From<u64>.
    boxes_blocks(blocks, boxes as usize)
}
