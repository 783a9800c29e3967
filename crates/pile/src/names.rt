// What a name in a text stands for: a guideline, or a kind of layer.
ghost use Rattle.std.specs.Prelude.{◌≡◌};
ghost use Rattle.std.specs.Option.{ok_or};
ghost use Rattle.pile.specs.declared.reasons.Reason.TheVariants.{UnknownGuideline, UnknownLayer};
ghost use Rattle.pile.specs.Reading.{guideline_named, kind_named};

use crate::choice::LayerKind;
use crate::guideline::Guideline;
use crate::reasons::Reason;

impl TryFrom<&[u8]> for Guideline {
    type Error = Reason;

    ghost try_from_gives = { λ name r. r ≡ ok_or (guideline_named name.now) UnknownGuideline };

    fn try_from(name: &[u8]) -> Result<Self, Reason> {
        match name {
            b"swiss" => Ok(Guideline::Swiss),
            b"german" => Ok(Guideline::German),
            _ => Err(Reason::UnknownGuideline),
        }
    }
}

impl TryFrom<&[u8]> for LayerKind {
    type Error = Reason;

    ghost try_from_gives = { λ name r. r ≡ ok_or (kind_named name.now) UnknownLayer };

    fn try_from(name: &[u8]) -> Result<Self, Reason> {
        match name {
            b"side" => Ok(LayerKind::Side),
            b"drift" => Ok(LayerKind::Drift),
            _ => Err(Reason::UnknownLayer),
        }
    }
}
