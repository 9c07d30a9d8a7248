// The records of an image: a name's kind, a site of a block, a line. Each requires the blocks that it reads.
// Bounds of indices and counts stand in the clauses: a type for each bound would be taken apart at every use.
ghost use Rattle.std.specs.Prelude.{◌≡◌, ◌+◌, ◌*◌, ◌/◌, ◌%◌, ◌<◌, ◌≤◌, length};
ghost use Rattle.definitions.specs.Words.{block_of};
ghost use Rattle.definitions.specs.Model as model;
ghost use Rattle.definitions.specs.Image.{site_record, line_record, name_count, kinds_of};
ghost use Rattle.records.specs.Records.{site_in, line_in};

use crate::{Line, Site};
pub use blocks::inside::block;
use sets::NameNo;

// The kind of a name of the list: a word, which may be any before the head is tested; it is compared with a NameKind's number. Over the image:
// its contract is of the image's names, and so is what is asked.
#[tactic(auto, using(definitions::proofs::Image::kind_of))]
pub fn kind(image: &[u8], n: NameNo) -> u64
    requires there { 512 ≤ length image.now }
    requires listed { n.0 < name_count image.now }
    requires few { n.0 < 60 }
    ensures { result ≡ model.kind_of_name (kinds_of image.now) n.0 }
{
    let head = block(image, 0);
    blocks::inside::data_word(head, 2 + usize::from(n.0))
}

// Record i of a block of sites.
#[tactic(auto, using(definitions::proofs::Image::site_of))]
pub fn site(block: &[u8; 512], i: usize) -> Site
    requires { i < 31 }
    ensures { site_in result ≡ site_record block.now i }
{
    let w = blocks::inside::data_word(block, 2 * i);
    let names = blocks::inside::data_word(block, 2 * i + 1);
    let b = w.to_le_bytes();
    Site {
        subject: NameNo(b[0]),
        flag: b[1],
        spare: w >> 16,
        names,
    }
}

// Line i of the box whose sites are block k. The lines follow, 31 to a block: a line is 16 bytes, and a block has 16 bytes besides.
#[tactic(auto, using(crate::proofs::PlaceLaws::line_words))]
pub fn line(image: &[u8], k: usize, i: usize) -> Line
    requires { 512 * (k + 1 + i / 31 + 1) ≤ length image.now }
    ensures { line_in result ≡ line_record (block_of image.now (k + 1 + i / 31)) (i % 31) }
{
    let at = 512 * (k + 1) + (8 + 16 * (i + i / 31));
    let w = words::word(image, at);
    let names = words::word(image, at + 8);
    let b = w.to_le_bytes();
    Line {
        op: b[0],
        name1: NameNo(b[1]),
        name2: NameNo(b[2]),
        spare: b[3],
        child1: usize::from(u16::from_le_bytes([b[4], b[5]])),
        child2: usize::from(u16::from_le_bytes([b[6], b[7]])),
        names,
    }
}
