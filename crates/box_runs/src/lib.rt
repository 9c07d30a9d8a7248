#![tactic(auto, using(crate::proofs::Runs::runs))]
// Runs over the records of one box: what its sites and lines say together, and its first record that does not fit.
// That lines are those of box b is a clause beside them: most walks ask only that they are there. Sites are an image, a block and a count, and no
// struct: the contracts speak of the image, and a block by itself would have to be tied to it.
// Bounds of indices and counts stand in the clauses: a type for each bound would be taken apart at every use.
ghost use Rattle.std.specs.Prelude.{◌≡◌, ◌+◌, ◌*◌, ◌<◌, ◌≤◌, length};
ghost use Rattle.definitions.specs.Words.{block_of};
ghost use Rattle.definitions.specs.Model.{is_free};
ghost use Rattle.definitions.specs.Image.{model_of};
ghost use Rattle.definitions.specs.ReadModel.{used_before, site_fits};
ghost use Rattle.refusals.specs.Answers.{answer_in};
ghost use Rattle.records.specs.NameSets.{SetOf};
ghost use Rattle.record_rules.specs.Rules.{KindsIn};
ghost use Rattle.records.specs.Places.{LinesAt, SitesAt};
ghost use Rattle.box_runs.specs.Runs.{box_misfit, line_fit, tree_fit, subject_in, bound_in, child_in};
ghost use Rattle.record_rules.specs.LineSets.{LineSetOf};

use record_rules::line_sets::{LineSet, with_children};
use records::inside::{block, site};
use records::names::binder;
use records::{Kinds, Lines};
use refusals::{Refusal, Rule};

// The subjects of the first n sites of block k.
pub fn subjects(image: &[u8], k: usize, n: usize) -> u64
    requires there { 512 * (k + 1) ≤ length image.now }
    requires few { n ≤ 31 }
    ensures { SetOf result (subject_in (block_of image.now k) n) }
{
    let block = block(image, k);
    (0..n).fold(0, |s, i| sets::insert(s, site(block, i).subject))
}

// The names that the lines bind.
pub fn bound_by(lines: Lines<'_>) -> u64
    ensures { SetOf result (bound_in lines.entry.image.now lines.entry.k lines.entry.n) }
{
    (0..lines.n).fold(0, |s, i| sets::union(s, binder(lines.line(i))))
}

// The lines that are children of these.
fn children(lines: Lines<'_>) -> LineSet
    ensures { LineSetOf result (child_in lines.entry.image.now lines.entry.k lines.entry.n) }
{
    (0..lines.n).fold(LineSet(0), |s, i| with_children(s, lines.line(i)))
}

// 6 in box b, whose n sites are block k; free: the free names; used: the subjects of earlier boxes.
pub fn box_sites(
    image: &[u8],
    b: usize,
    k: usize,
    n: usize,
    free: u64,
    used: u64,
) -> Result<(), Refusal>
    requires sites { SitesAt image.now b k n }
    requires few { length (model_of image.now).kinds ≤ 60 }
    requires free { SetOf free (is_free (model_of image.now).kinds) }
    requires used { SetOf used (used_before (model_of image.now) b 0) }
    ensures { answer_in result ≡ box_misfit 6 n (site_fits (model_of image.now)) b }
{
    let block = block(image, k);
    let mut seen = used;
    for i in 0..n {
        let s = site(block, i);
        Rule::Site.fault_if(!record_rules::site_fits(s, free, seen), b, i)?;
        seen = sets::insert(seen, s.subject);
    }
    Ok(())
}

// 7 in box b, of these lines.
pub fn box_lines(lines: Lines<'_>, b: usize, kinds: Kinds) -> Result<(), Refusal>
    requires lines { LinesAt lines.image.now b lines.k lines.n }
    requires kinds { KindsIn (model_of lines.image.now).kinds kinds.listed kinds.restricted kinds.received kinds.exposed }
    ensures { answer_in result ≡ box_misfit 7 lines.entry.n (line_fit (model_of lines.entry.image.now)) b }
{
    for i in 0..lines.n {
        let fits = record_rules::line_fits(lines.line(i), kinds);
        Rule::Line.fault_if(!fits, b, i)?;
    }
    Ok(())
}

// 8 in box b, of these lines.
pub fn box_tree(lines: Lines<'_>, b: usize) -> Result<(), Refusal>
    requires { LinesAt lines.image.now b lines.k lines.n }
    ensures { answer_in result ≡ box_misfit 8 lines.entry.n (tree_fit (model_of lines.entry.image.now)) b }
{
    let all = children(lines);
    let mut seen = LineSet(0);
    for i in 0..lines.n {
        let l = lines.line(i);
        let fits = record_rules::tree_fits(l, i, lines.n, seen, all);
        Rule::Tree.fault_if(!fits, b, i)?;
        seen = with_children(seen, l);
    }
    Ok(())
}
