#![tactic(auto, using(crate::proofs::PassLaws::passes))]
// Refusals 6 to 9, each over the whole model, boxes and records ascending. A loop over the boxes goes over their numbers, by which what is called
// takes a box. Each pass puts its Lines together: a method of Laid would give image, block and count as equations to rewrite by.
ghost use Rattle.std.specs.Prelude.{◌≡◌};
ghost use Rattle.std.proofs.Math.Option.{none};
ghost use Rattle.definitions.specs.Image.{model_of};
ghost use Rattle.definitions.specs.ReadModel.{model_fault};
ghost use Rattle.refusals.specs.Answers.{answer_in};
ghost use Rattle.model_rules.specs.Passes.{sites_misfit, lines_misfit, trees_misfit, reach_misfit};

use layouts::Laid;
use records::Lines;
use refusals::Refusal;

fn sites_pass(m: &Laid<'_>) -> Result<(), Refusal>
    ensures { answer_in result ≡ sites_misfit (model_of m.now.image.now) }
{
    let free = m.layout.kinds.free;
    let mut used = 0;
    for b in 0..m.layout.boxes {
        let place = m.layout.each[b];
        box_runs::box_sites(
            m.image,
            b,
            place.at as usize,
            place.sites as usize,
            free,
            used,
        )?;
        used = sets::union(
            used,
            box_runs::subjects(m.image, place.at as usize, place.sites as usize),
        );
    }
    Ok(())
}

// 7 and 8 walk the boxes alike: a closure for the call would need a clause for what 7 asks of the kinds.
fn lines_pass(m: &Laid<'_>) -> Result<(), Refusal>
    ensures { answer_in result ≡ lines_misfit (model_of m.now.image.now) }
{
    let kinds = m.layout.kinds;
    for b in 0..m.layout.boxes {
        let place = m.layout.each[b];
        let lines = Lines {
            image: m.image,
            k: place.at as usize,
            n: place.lines as usize,
        };
        box_runs::box_lines(lines, b, kinds)?;
    }
    Ok(())
}

fn trees_pass(m: &Laid<'_>) -> Result<(), Refusal>
    ensures { answer_in result ≡ trees_misfit (model_of m.now.image.now) }
{
    for b in 0..m.layout.boxes {
        let place = m.layout.each[b];
        let lines = Lines {
            image: m.image,
            k: place.at as usize,
            n: place.lines as usize,
        };
        box_runs::box_tree(lines, b)?;
    }
    Ok(())
}

fn reach_pass(m: &Laid<'_>) -> Result<(), Refusal>
    requires trees { trees_misfit (model_of m.now.image.now) ≡ none }
    ensures { answer_in result ≡ reach_misfit (model_of m.now.image.now) }
{
    let kinds = m.layout.kinds;
    let free_or_unlisted = sets::union(kinds.free, records::names::complement(kinds.listed));
    let mut bound = 0;
    for b in 0..m.layout.boxes {
        let place = m.layout.each[b];
        let lines = Lines {
            image: m.image,
            k: place.at as usize,
            n: place.lines as usize,
        };
        box_reach::box_reach(lines, b, free_or_unlisted, bound)?;
        bound = sets::union(bound, place.bound);
    }
    Ok(())
}

// 6 to 9, in this order.
#[tactic(auto, using(crate::proofs::PassLaws::parts))]
pub fn model_fault(m: &Laid<'_>) -> Result<(), Refusal>
    ensures { answer_in result ≡ model_fault (model_of m.now.image.now) }
{
    sites_pass(m)?;
    lines_pass(m)?;
    trees_pass(m)?;
    reach_pass(m)
}
