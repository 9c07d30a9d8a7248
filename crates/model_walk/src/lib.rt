#![tactic(auto)]
// One walk over the records of all boxes of a model that may only say "all right". Wrong digits are joined.
// Bounds of indices and counts stand in the clauses: a type for each bound would be taken apart at every use.
ghost use Rattle.std.specs.Prelude.{◌≡◌, ◌+◌, ◌*◌, ◌≤◌, length, IfSome};
ghost use Rattle.std.proofs.Math.Option.{none};
ghost use Rattle.definitions.specs.ReadModel.{blocks_fault};
ghost use Rattle.layouts.specs.LayoutOf.{FrameOf};
ghost use Rattle.model_walk.specs.Sites.{TypeTold, SiteTold, SitesTold};
ghost use Rattle.model_walk.specs.Boxes.{BoxesTold};

use layouts::Layout;
use line_table::table;
use line_walk::{Walked, walk_lines};
use records::Lines;
use records::names::complement;
use sets::NameNo;

// 1 where the type of the name of the low eight digits does not fit, and else 0.
#[tactic(auto, using(crate::proofs::SiteWalks::site_walks))]
fn type_wrong(free: u64, w: u64, names: u64) -> u64
    ensures { TypeTold free w names result }
{
    u64::from(!records::names::type_fits(free, NameNo(w.to_le_bytes()[0]), names))
}

// Wrong digits of a site by its two words; free: the free names; used: the subjects of the sites before.
#[tactic(auto, using(crate::proofs::SiteWalks::site_walks))]
fn site_wrong(free: u64, used: u64, w: u64, names: u64) -> u64
    ensures { SiteTold free used w names result }
{
    let digits = w & 0xffff_ffff_ffff_fec0;
    let subject = line_table::one(w) & (!free | used);
    digits | subject | type_wrong(free, w, names)
}

// The n sites of block k, of a box before which others have a set of subjects. Where no wrong digit is found every site fits. By a site's number,
// at which its two data words are read.
#[tactic(auto, using(crate::proofs::SiteWalks::site_walks))]
pub fn walk_sites(image: &[u8], k: usize, n: usize, free: u64, start: u64) -> Walked
    requires there { 512 * (k + 1) ≤ length image.now }
    requires few { n ≤ 31 }
    ensures { SitesTold image.now k n free start result.bad result.names }
{
    let block = blocks::inside::block(image, k);
    let mut bad: u64 = 0;
    let mut used = start;
    for i in 0..n {
        let w = blocks::inside::data_word(block, 2 * i);
        let names = blocks::inside::data_word(block, 2 * i + 1);
        bad |= site_wrong(free, used, w, names);
        used |= line_table::one(w);
    }
    Walked { bad, names: used }
}

// All boxes: the frame with the names that the lines of each box bind, where no wrong digit is found. Every record fits then; and each
// binder is new, so what a box binds is what is bound up to its end, less what was bound before it. Asks of the image only that its blocks are
// right, where RightBlocks knows its length too.
#[tactic(auto, using(crate::proofs::BoxWalks::box_walks))]
pub fn walk_boxes(image: &[u8], frame: Layout) -> Option<Layout>
    requires blocks { blocks_fault image.now ≡ none }
    requires frame { FrameOf image.now frame }
    ensures { IfSome result (λ l. BoxesTold image.now l) }
{
    let kinds = frame.kinds;
    let t = table(kinds);
    let mut each = frame.each;
    let mut used: u64 = 0;
    let mut seen: u64 = 0;
    let mut bad: u64 = 0;
    for place in &mut each[..frame.boxes] {
        let s = walk_sites(
            image,
            place.at as usize,
            place.sites as usize,
            kinds.free,
            used,
        );
        let lines = Lines {
            image,
            k: place.at as usize,
            n: place.lines as usize,
        };
        let w = walk_lines(lines, &t, kinds, seen);
        place.bound = sets::intersection(w.names, complement(seen));
        bad |= s.bad | w.bad;
        used = s.names;
        seen = w.names;
    }
    (bad == 0).then_some(Layout { each, ..frame })
}
