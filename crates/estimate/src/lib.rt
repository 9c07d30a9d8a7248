#![tactic(auto)]
// An estimate's image: the first refusal against the counts of a model, and the sets where they stand. `read` takes any bytes and any
// counts. The sets are one word each, read in place; they require the blocks, so that who has read an image tests its length once.
// Bounds of indices and counts stand in the clauses: a type for each bound would be taken apart at every use.
ghost use Rattle.std.specs.Prelude.{◌≡◌, ◌+◌, ◌*◌, ◌<◌, ◌≤◌, length};
ghost use Rattle.definitions.specs.Estimate.{estimate_of};
ghost use Rattle.definitions.specs.ReadEstimate.{read_estimate};
ghost use Rattle.refusals.specs.Answers.{answer_in};
ghost use Rattle.estimate.specs.Known.{EstimateOfNames};

use blocks::inside::{BlockKind, block, data_word};
use refusals::{Refusal, Rule};
use sets::NameNo;

mod tables;

// The image of an estimate for so many boxes, whose blocks are there and whose rho(n) and shown(b) are sets of names.
#[derive(Clone, Copy)]
pub struct Estimate<'a> {
    pub image: &'a [u8],
    pub boxes: usize,
    pub ghost known: { EstimateOfNames image.now boxes },
}

// The first refusal of an estimate for so many names and boxes. It has 512 bytes, and 1024 for each box.
#[tactic(auto, using(crate::proofs::Laws::tables), unfolding(definitions::specs::ReadEstimate::read_estimate, crate::specs::Blocks::box_tables_fault))]
pub fn read(image: &[u8], names: usize, boxes: usize) -> Result<(), Refusal>
    ensures { answer_in result ≡ read_estimate names boxes image.now }
{
    let fits = (image.len() % 1024 == 512) & (image.len() / 1024 == boxes);
    Rule::Length.fault_if(!fits, 0, 0)?;
    tables::table(image, names, 0, BlockKind::Rho, 0)?;
    tables::each_box(image, names, boxes)
}

// The sets over any image, each of which asks only for the block that it reads. An Estimate has them as methods.
// eps and kap, and shown and hidden, are one call each: each contract is one set of the definitions.

// rho(n).
#[tactic(auto, unfolding(definitions::specs::Estimate::estimate_of))]
pub fn rho(image: &[u8], n: NameNo) -> u64
    requires there { 512 ≤ length image.now }
    requires word { n.0 < 62 }
    ensures { result ≡ (estimate_of image.now).rho n.0 }
{
    data_word(block(image, 0), usize::from(n.0))
}

// eps(b, n).
#[tactic(auto, unfolding(definitions::specs::Estimate::estimate_of, definitions::specs::Estimate::eps_block))]
pub fn eps(image: &[u8], b: usize, n: NameNo) -> u64
    requires there { 512 * (2 + 2 * b) ≤ length image.now }
    requires word { n.0 < 62 }
    ensures { result ≡ (estimate_of image.now).eps b n.0 }
{
    data_word(block(image, 1 + 2 * b), usize::from(n.0))
}

// kap(b, n).
#[tactic(auto, unfolding(definitions::specs::Estimate::estimate_of, definitions::specs::Estimate::kap_block))]
pub fn kap(image: &[u8], b: usize, n: NameNo) -> u64
    requires there { 512 * (3 + 2 * b) ≤ length image.now }
    requires word { n.0 < 62 }
    ensures { result ≡ (estimate_of image.now).kap b n.0 }
{
    data_word(block(image, 2 + 2 * b), usize::from(n.0))
}

// shown(b).
#[tactic(auto, unfolding(definitions::specs::Estimate::estimate_of, definitions::specs::Estimate::eps_block))]
pub fn shown(image: &[u8], b: usize) -> u64
    requires { 512 * (2 + 2 * b) ≤ length image.now }
    ensures { result ≡ (estimate_of image.now).shown b }
{
    data_word(block(image, 1 + 2 * b), 60)
}

// hidden(b).
#[tactic(auto, unfolding(definitions::specs::Estimate::estimate_of, definitions::specs::Estimate::eps_block))]
pub fn hidden(image: &[u8], b: usize) -> u64
    requires { 512 * (2 + 2 * b) ≤ length image.now }
    ensures { result ≡ (estimate_of image.now).hidden b }
{
    data_word(block(image, 1 + 2 * b), 61)
}

// The sets of an estimate that has been read.
impl<'a> Estimate<'a> {
    // rho(n).
    pub fn rho(&self, n: NameNo) -> u64
        requires { n.0 < 62 }
        ensures { result ≡ (estimate_of self.now.image.now).rho n.0 }
    {
        rho(self.image, n)
    }

    // eps(b, n).
    pub fn eps(&self, b: usize, n: NameNo) -> u64
        requires within { b < self.now.boxes }
        requires word { n.0 < 62 }
        ensures { result ≡ (estimate_of self.now.image.now).eps b n.0 }
    {
        eps(self.image, b, n)
    }

    // kap(b, n).
    pub fn kap(&self, b: usize, n: NameNo) -> u64
        requires within { b < self.now.boxes }
        requires word { n.0 < 62 }
        ensures { result ≡ (estimate_of self.now.image.now).kap b n.0 }
    {
        kap(self.image, b, n)
    }

    // shown(b).
    pub fn shown(&self, b: usize) -> u64
        requires { b < self.now.boxes }
        ensures { result ≡ (estimate_of self.now.image.now).shown b }
    {
        shown(self.image, b)
    }

    // hidden(b).
    pub fn hidden(&self, b: usize) -> u64
        requires { b < self.now.boxes }
        ensures { result ≡ (estimate_of self.now.image.now).hidden b }
    {
        hidden(self.image, b)
    }
}
