#![tactic(auto)]
// Blocks of 512 bytes: headings, data words and the check. The calls of this file take any image and any number, and say so where the image
// has no such block. Those of `inside` take a block.
ghost use Rattle.std.specs.Prelude.{◌≡◌, ◌+◌, ◌*◌, ◌%◌, ◌<◌, ◌≤◌, length, MatchOption};
ghost use Rattle.definitions.specs.Bounded.{◌upto◌};
ghost use Rattle.definitions.specs.Words.{block_of};
ghost use Rattle.definitions.specs.Check.{check_of};
ghost use Rattle.sets.specs.Options.{option_in};
ghost use Rattle.blocks.specs.Answers.{of_block};

pub mod inside;
mod sums;

// An image of whole blocks.
#[derive(Clone, Copy)]
pub struct Blocks<'a> {
    pub image: &'a [u8],
    pub ghost whole: { length image.now % 512 ≡ 0 },
}

// The image has block k whole.
#[tactic(auto, using(crate::proofs::BlockLaws::has_block_is))]
pub fn has_block(image: &[u8], k: usize) -> bool
    ensures { result ≡ (512 * (k + 1) upto length image.now) }
{
    k < image.len() / 512
}

// Block k, where the image has it whole.
#[tactic(auto, using(crate::proofs::BlockLaws::blocks))]
pub fn block(image: &[u8], k: usize) -> Option<&[u8; 512]>
    ensures { MatchOption result (length image.now < 512 * (k + 1)) (λ b. (512 * (k + 1) ≤ length image.now) × (b.now ≡ block_of image.now k)) }
{
    if has_block(image, k) {
        Some(inside::block(image, k))
    } else {
        None
    }
}

// The check that block k ought to have, where the image has the block whole.
#[tactic(auto, using(crate::proofs::BlockLaws::blocks))]
pub fn block_check(image: &[u8], k: usize) -> Option<u64>
    ensures { option_in result ≡ of_block image.now k check_of }
{
    let block = block(image, k)?;
    Some(inside::check(block))
}
