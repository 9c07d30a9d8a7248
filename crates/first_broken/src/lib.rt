#![tactic(auto)]
// The first broken clause of an estimate: by name, then box by box its sites and its lines.
ghost use Rattle.std.specs.Prelude.{◌≡◌};
ghost use Rattle.definitions.specs.Image.{model_of};
ghost use Rattle.definitions.specs.Estimate.{estimate_of};
ghost use Rattle.definitions.specs.Clauses.{first_broken};
ghost use Rattle.record_clauses.specs.Found.{found_in};
ghost use Rattle.first_broken.specs.Known.{Unrefused};

use boxes::Checking;
use estimate::Estimate;
use model::ReadModel;
use record_clauses::Broken;
use sharing::Tables;

mod boxes;

// A model and an estimate for its boxes, neither of them refused.
#[derive(Clone, Copy)]
pub struct Both<'m, 'e> {
    pub model: ReadModel<'m>,
    pub estimate: Estimate<'e>,
    pub ghost unrefused: { Unrefused model.image.now estimate.image.now },
    pub ghost boxes: { estimate.boxes ≡ model.layout.boxes },
}

// Clause 1 by name; then box by box.
#[tactic(auto, using(crate::proofs::Steps::finds))]
pub fn find(both: &Both<'_, '_>) -> Result<(), Broken>
    ensures { found_in result ≡ first_broken (model_of both.now.model.image.now) (estimate_of both.now.estimate.image.now) }
{
    record_clauses::names::names(both.estimate.image, both.model.layout.kinds.free)?;
    let c = Checking {
        model: both.model,
        tables: Tables::new(both.estimate),
    };
    c.boxes()
}
