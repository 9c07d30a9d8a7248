#![tactic(auto)]
// A model image, read where it stands: its layout, or the refusal with its number and two places.
ghost use Rattle.std.specs.Prelude.{◌≡◌, IfOk};
ghost use Rattle.std.proofs.Math.Option.{none};
ghost use Rattle.definitions.specs.ReadModel.{read_model};
ghost use Rattle.layouts.specs.LayoutOf.{LayoutOf};
ghost use Rattle.refusals.specs.Answers.{answer_in};

pub use layouts::{BoxPlace, Layout};
use refusals::Refusal;

// A model that has been read: its image, and where its parts stand.
#[derive(Clone, Copy)]
pub struct ReadModel<'a> {
    pub image: &'a [u8],
    pub layout: Layout,
    pub ghost read: { read_model image.now ≡ none },
    pub ghost of: { LayoutOf image.now layout },
}

impl<'a> ReadModel<'a> {
    // The same, moved field by field: as one value it is so long that a call of the C library's memcpy moves it.
    #[inline(always)]
    pub fn by_fields(self) -> ReadModel<'a>
        ensures image { result.image ≡ self.entry.image }
        ensures layout { result.layout ≡ self.entry.layout }
    {
        ReadModel {
            image: self.image,
            layout: Layout {
                names: self.layout.names,
                boxes: self.layout.boxes,
                each: self.layout.each,
                kinds: self.layout.kinds,
            },
        }
    }
}

// A model image is read: the first refusal in the paper's order, or the model. The walk that may only say "all right" comes first.
#[tactic(auto, using(crate::proofs::Models::models), unfolding(definitions::specs::ReadModel::read_model))]
pub fn read(image: &[u8]) -> Result<ReadModel<'_>, Refusal>
    ensures answer { answer_in result ≡ read_model image.now }
    ensures image { IfOk result (λ m. m.image.now ≡ image.now) }
{
    let right = block_order::read(image)?;
    let frame = layouts::frame_of(right);
    if let Some(layout) = model_walk::walk_boxes(image, frame) {
        return Ok(ReadModel { image, layout });
    }
    let m = layouts::layout_of(right);
    model_rules::model_fault(&m)?;
    let layout = m.layout;
    Ok(ReadModel { image, layout })
}
