// Box by box: its sites, then its lines.
// Bounds of indices and counts stand in the clauses: a type for each bound would be taken apart at every use.
ghost use Rattle.std.specs.Prelude.{◌≡◌, ◌<◌};
ghost use Rattle.definitions.specs.Bounded.{first_below};
ghost use Rattle.definitions.specs.Words.{block_of, count_of};
ghost use Rattle.definitions.specs.Image.{boxes_of, sites_block, lines_of, model_of};
ghost use Rattle.definitions.specs.Estimate.{estimate_of};
ghost use Rattle.definitions.specs.Clauses.{site_broken, line_broken, box_broken};
ghost use Rattle.records.specs.Places.{LinesAt};
ghost use Rattle.record_clauses.specs.Found.{found_in};
ghost use Rattle.first_broken.specs.Known.{Unrefused};

use line_gather::NamedLines;
use model::ReadModel;
use record_clauses::{Broken, lines};
use records::Lines;
use sharing::Tables;

// A model, and the tables of an estimate for its boxes, neither of them refused. `Both`, with the tables in the
// estimate's place: they are made once clause 1 is met.
#[derive(Clone, Copy)]
pub struct Checking<'m, 'e> {
    pub model: ReadModel<'m>,
    pub tables: Tables<'e>,
    pub ghost unrefused: { Unrefused model.image.now tables.estimate.image.now },
    pub ghost boxes: { tables.estimate.boxes ≡ model.layout.boxes },
}

impl<'m, 'e> Checking<'m, 'e> {
    // Clause 2, at site i of box b.
    #[tactic(auto, using(crate::proofs::Steps::sites))]
    fn site(&self, b: usize, i: usize) -> Result<(), Broken>
        requires inside { b < boxes_of self.now.model.image.now }
        requires listed { i < count_of (block_of self.now.model.image.now (sites_block self.now.model.image.now b)) }
        ensures { found_in result ≡ site_broken (model_of self.now.model.image.now) (estimate_of self.now.tables.estimate.image.now) b i }
    {
        let block = records::inside::block(self.model.image, self.model.layout.each[b].at as usize);
        let s = records::inside::site(block, i);
        lines::broken_at(clauses::clause2(self.tables.estimate.image, b, s), 2, b, i)
    }

    // The sites of box b.
    #[tactic(auto, using(crate::proofs::Steps::firsts))]
    fn sites(&self, b: usize) -> Result<(), Broken>
        requires { b < boxes_of self.now.model.image.now }
        ensures { found_in result ≡ first_below (count_of (block_of self.now.model.image.now (sites_block self.now.model.image.now b))) (site_broken (model_of self.now.model.image.now) (estimate_of self.now.tables.estimate.image.now) b) }
    {
        for i in 0..self.model.layout.each[b].sites as usize {
            self.site(b, i)?;
        }
        Ok(())
    }

    // The lines of box b, as they stand in the model.
    #[tactic(auto, using(crate::proofs::Steps::named))]
    fn named_lines(&self, b: usize) -> NamedLines<'m>
        requires { b < boxes_of self.now.model.image.now }
        ensures image { result.lines.image.now ≡ self.now.model.image.now }
        ensures lines { LinesAt self.now.model.image.now b result.lines.k result.lines.n }
    {
        let place = self.model.layout.each[b];
        NamedLines {
            lines: Lines {
                image: self.model.image,
                k: place.at as usize,
                n: place.lines as usize,
            },
        }
    }

    // The lines of box b, one by one: the first that breaks a clause.
    #[tactic(auto, using(crate::proofs::Steps::walks))]
    fn each_line(&self, b: usize) -> Result<(), Broken>
        requires { b < boxes_of self.now.model.image.now }
        ensures { found_in result ≡ first_below (lines_of self.now.model.image.now b) (line_broken (model_of self.now.model.image.now) (estimate_of self.now.tables.estimate.image.now) b) }
    {
        let named = self.named_lines(b);
        let mut g = sharing::nothing();
        for j in 0..named.lines.n {
            let l = named.line(j);
            g = lines::gather(&self.tables, b, l, g);
            lines::by_operation(self.tables.estimate, g, b, j, l)?;
        }
        Ok(())
    }

    // The lines of box b: one walk that may show that no clause is broken, and else line by line.
    #[tactic(auto, using(crate::proofs::Steps::walks))]
    fn lines(&self, b: usize) -> Result<(), Broken>
        requires { b < boxes_of self.now.model.image.now }
        ensures { found_in result ≡ first_below (lines_of self.now.model.image.now b) (line_broken (model_of self.now.model.image.now) (estimate_of self.now.tables.estimate.image.now) b) }
    {
        if clause_walk::lines_pass(self.named_lines(b), &self.tables, b) {
            return Ok(());
        }
        self.each_line(b)
    }

    // Box b: its sites, then its lines.
    #[tactic(auto, using(crate::proofs::Steps::boxes))]
    fn one_box(&self, b: usize) -> Result<(), Broken>
        requires { b < boxes_of self.now.model.image.now }
        ensures { found_in result ≡ box_broken (model_of self.now.model.image.now) (estimate_of self.now.tables.estimate.image.now) b }
    {
        self.sites(b)?;
        self.lines(b)
    }

    // The boxes, ascending. A range, and no walk over the layout's places: what is asked of a box goes by its number.
    #[tactic(auto, using(crate::proofs::Steps::firsts))]
    pub fn boxes(&self) -> Result<(), Broken>
        ensures { found_in result ≡ first_below (boxes_of self.now.model.image.now) (box_broken (model_of self.now.model.image.now) (estimate_of self.now.tables.estimate.image.now)) }
    {
        for b in 0..self.model.layout.boxes {
            self.one_box(b)?;
        }
        Ok(())
    }
}
