#![tactic(auto, using(crate::proofs::FaultLaws::block_faults))]
// Refusals 1 to 5 of one block: it is there, its check matches, its heading, its count, and nothing past its records.
// Bounds of indices and counts stand in the clauses: a type for each bound would be taken apart at every use.
ghost use Rattle.std.specs.Prelude.{◌≡◌, ◌≤◌, IfOk};
ghost use Rattle.definitions.specs.Bounded.{◌and◌, ◌upto◌};
ghost use Rattle.definitions.specs.Words.{block_of, count_of};
ghost use Rattle.definitions.specs.ReadModel.{head_counts, head_fault, sites_fault, lines_fault, left_over_fault};
ghost use Rattle.blocks.specs.Answers.{kind_number};
ghost use Rattle.refusals.specs.Answers.{answer_in};
ghost use Rattle.block_faults.specs.BlockFaults.{headed_fault, heading_fault, counts_fault, kinds_fit};

use blocks::Blocks;
use blocks::inside::BlockKind;
use refusals::{Refusal, Rule};

// 2 and 3 of a block, of number k: its check matches, and its heading is what the order asks for.
pub fn headed(block: &[u8; 512], k: usize, kind: BlockKind, place: usize) -> Result<(), Refusal>
    ensures { answer_in result ≡ headed_fault block.now k (kind_number kind) place }
{
    Rule::Check.fault_if(!blocks::inside::check_matches(block), k, 0)?;
    let h = blocks::inside::heading_of(block);
    let fits = blocks::inside::heading_matches(h, k, kind as usize, place);
    Rule::Heading.fault_if(!fits, k, 0)
}

// Block k, which is there, whose check matches, and whose heading is what the order asks for.
fn heading_fault(image: &[u8], k: usize, kind: BlockKind, b: usize) -> Result<&[u8; 512], Refusal>
    ensures answer { answer_in result ≡ heading_fault image.now k (kind_number kind) b }
    ensures block { IfOk result (λ block. block.now ≡ block_of image.now k) }
{
    Rule::Length.fault_if(!blocks::has_block(image, k), k, 0)?;
    let block = blocks::inside::block(image, k);
    headed(block, k, kind, b)?;
    Ok(block)
}

// 4 and 5 of a block, of number k: at least and at most so many records, and nothing past them.
fn counts_fault(block: &[u8; 512], k: usize, least: usize, most: usize) -> Result<(), Refusal>
    requires { most ≤ 31 }
    ensures { answer_in result ≡ counts_fault block.now k (least upto count_of block.now and count_of block.now upto most) }
{
    let h = blocks::inside::heading_of(block);
    let n = h.count;
    Rule::Count.fault_if(n < least || most < n, k, 0)?;
    Rule::Stray.fault_if(!blocks::inside::clear_from(block, 2 * n), k, 0)
}

pub fn sites_block(image: &[u8], k: usize, b: usize) -> Result<(), Refusal>
    ensures { answer_in result ≡ sites_fault image.now k b }
{
    let block = heading_fault(image, k, BlockKind::Sites, b)?;
    counts_fault(block, k, 1, 16)
}

// Block j of a box's lines.
pub fn lines_block(image: &[u8], k: usize, b: usize, j: usize) -> Result<(), Refusal>
    ensures { answer_in result ≡ lines_fault image.now k b j }
{
    let block = heading_fault(image, k, BlockKind::Lines, b)?;
    counts_fault(block, k, usize::from(j == 0), 31)
}

// The kinds of the first so many names are at most 3, `records::NameKind::Exposed`: a crate above this one.
fn kinds_fit(block: &[u8; 512], names: usize) -> bool
    requires { names ≤ 60 }
    ensures { result ≡ kinds_fit block.now names }
{
    (0..names).all(|n| blocks::inside::data_word(block, 2 + n) <= 3)
}

fn head_counts(block: &[u8; 512]) -> bool
    ensures { result ≡ head_counts block.now }
{
    let h = blocks::inside::heading_of(block);
    let names = blocks::inside::data_word(block, 0);
    let boxes = blocks::inside::data_word(block, 1);
    if h.count != 0 || 60 < names || 8 < boxes {
        return false;
    }
    // A word of the image: usize has no From<u64>.
    kinds_fit(block, names as usize)
}

pub fn head_block(image: &[u8]) -> Result<(), Refusal>
    ensures { answer_in result ≡ head_fault image.now }
{
    let block = heading_fault(image, 0, BlockKind::Head, 0)?;
    Rule::Count.fault_if(!head_counts(block), 0, 0)?;
    // A word of the image: usize has no From<u64>.
    let names = blocks::inside::data_word(block, 0) as usize;
    let clear = blocks::inside::clear_from(block, 2 + names);
    Rule::Stray.fault_if(!clear, 0, 0)
}

// A block left over, after the last box.
pub fn left_over(blocks: Blocks<'_>, k: usize) -> Result<(), Refusal>
    requires { k ≤ 100 }
    ensures { answer_in result ≡ left_over_fault blocks.entry.image.now k }
{
    let Some(block) = blocks::block(blocks.image, k) else {
        return Ok(());
    };
    let check = blocks::inside::check_matches(block);
    Rule::Check.fault_if(!check, k, 0)?;
    Rule::Heading.fault_if(true, k, 0)
}
