#![tactic(auto)]
// Where the parts of a model stand, in an image whose blocks are right; and the box that binds a name.
// Bounds of indices and counts stand in the clauses: a type for each bound would be taken apart at every use.
ghost use Rattle.std.specs.Prelude.{◌≡◌, ◌≤◌};
ghost use Rattle.std.proofs.Math.Option.{none};
ghost use Rattle.definitions.specs.Words.{block_of, count_of};
ghost use Rattle.definitions.specs.ReadModel.{blocks_fault};
ghost use Rattle.layouts.specs.Layouts.{line_total, KindInserted, KindSetsOf, BoxPlaceOf};
ghost use Rattle.layouts.specs.LayoutOf.{FrameOf, LayoutOf};
ghost use Rattle.sets.specs.Options.{option_in};
ghost use Rattle.layouts.specs.Owners.{first_binder};

use block_order::{Blocks, RightBlocks};
pub use line_table::Kinds;
use records::names::insert_if;
use records::{Lines, NameKind};
use sets::NameNo;

// Where a box stands: the block of its sites, how many sites and lines it has, and the names that its lines bind. The numbers are u16, so that the
// eight places of a layout are 128 bytes, which are moved in place; what is longer is moved by a call of the C library's memcpy. They are read
// by `as`: `usize::from` is a call, whose result each proof would have to be told.
#[derive(Clone, Copy)]
pub struct BoxPlace {
    pub at: u16,
    pub sites: u16,
    pub lines: u16,
    pub bound: u64,
}

// Where a model's parts stand: its boxes, and its names by kind. The count of boxes stands beside their array, since memory is fixed.
#[derive(Clone, Copy)]
pub struct Layout {
    pub names: usize,
    pub boxes: usize,
    pub each: [BoxPlace; 8],
    pub kinds: Kinds,
}

// An image whose blocks are right, and where its parts stand: no model that is read, since 6 to 9 are still to be looked for.
#[derive(Clone, Copy)]
pub struct Laid<'a> {
    pub image: &'a [u8],
    pub layout: Layout,
    pub ghost right: { blocks_fault image.now ≡ none },
    pub ghost of: { LayoutOf image.now layout },
}

// Name n, of a kind, put in. The kind is the image's word, compared with each kind's number with no branch: a NameKind would be matched.
fn insert_kind(s: Kinds, n: NameNo, kind: u64) -> Kinds
    ensures { KindInserted s n.0 kind result }
{
    Kinds {
        listed: sets::insert(s.listed, n),
        free: insert_if(s.free, n, kind == NameKind::Free as u64),
        restricted: insert_if(s.restricted, n, kind == NameKind::Restricted as u64),
        received: insert_if(s.received, n, kind == NameKind::Received as u64),
        exposed: insert_if(s.exposed, n, kind == NameKind::Exposed as u64),
    }
}

// The names of the head, by kind.
#[tactic(auto, using(crate::proofs::LayoutLaws::layouts))]
fn kind_sets(head: &[u8; 512], names: usize) -> Kinds
    requires { names ≤ 60 }
    ensures { KindSetsOf head.now names result }
{
    let mut s = Kinds {
        listed: 0,
        free: 0,
        restricted: 0,
        received: 0,
        exposed: 0,
    };
    for n in 0..names {
        let kind = blocks::inside::data_word(head, 2 + n);
        // n is below 60: u8 has no From<usize>.
        s = insert_kind(s, NameNo(n as u8), kind);
    }
    s
}

// How many lines follow block k.
#[tactic(auto, using(crate::proofs::LayoutLaws::layouts))]
fn line_total(blocks: Blocks<'_>, k: usize) -> usize
    requires block { k ≤ 99 }
    requires few { line_total blocks.image.now k ≤ 124 }
    ensures { result ≡ line_total blocks.entry.image.now k }
{
    let n = block_order::line_blocks(blocks, k + 1);
    31 * (n - 1) + block_order::count(blocks, k + n)
}

// No box.
const NOWHERE: BoxPlace = BoxPlace {
    at: 0,
    sites: 0,
    lines: 0,
    bound: 0,
};

// The box whose sites are block k, but for the names that its lines bind.
#[tactic(auto, using(crate::proofs::LayoutLaws::layouts))]
fn box_place(blocks: Blocks<'_>, k: usize) -> BoxPlace
    requires block { k ≤ 99 }
    requires few { line_total blocks.image.now k ≤ 124 }
    requires sites { count_of (block_of blocks.image.now k) ≤ 16 }
    ensures { BoxPlaceOf blocks.entry.image.now k result }
{
    BoxPlace {
        at: k as u16,
        sites: block_order::count(blocks, k) as u16,
        lines: line_total(blocks, k) as u16,
        bound: 0,
    }
}

// All of the layout but the names that lines bind.
#[tactic(auto, using(crate::proofs::LayoutLaws::layouts))]
pub fn frame_of(right: RightBlocks<'_>) -> Layout
    ensures { FrameOf right.entry.blocks.image.now result }
{
    let blocks = right.blocks;
    let head = blocks::inside::block(blocks.image, 0);
    // Words of the image: usize has no From<u64>.
    let names = blocks::inside::data_word(head, 0) as usize;
    let boxes = blocks::inside::data_word(head, 1) as usize;
    let kinds = kind_sets(head, names);
    let mut each = [NOWHERE; 8];
    let mut k = 1;
    for place in &mut each[..boxes] {
        *place = box_place(blocks, k);
        k += 1 + block_order::line_blocks(blocks, k + 1);
    }
    Layout {
        names,
        boxes,
        each,
        kinds,
    }
}

// The frame, and the names that the lines of each box bind.
#[tactic(auto, using(crate::proofs::BoundLaws::bounds))]
pub fn layout_of<'a>(right: RightBlocks<'a>) -> Laid<'a>
    ensures { result.image.now ≡ right.entry.blocks.image.now }
{
    let image = right.blocks.image;
    let frame = frame_of(right);
    let mut each = frame.each;
    for place in &mut each[..frame.boxes] {
        let lines = Lines {
            image,
            k: place.at as usize,
            n: place.lines as usize,
        };
        place.bound = box_runs::bound_by(lines);
    }
    Laid {
        image,
        layout: Layout { each, ..frame },
    }
}

impl Layout {
    // The first box whose lines bind a name.
    pub fn owner_of(&self, n: NameNo) -> Option<usize>
        requires { self.now.boxes ≤ 8 }
        ensures { option_in result ≡ first_binder self.now.each self.now.boxes n.0 }
    {
        self.each[..self.boxes]
            .iter()
            .position(|place| sets::contains(place.bound, n))
    }
}
