// A pile named by a text: a guideline and layers on top, lowest first, as `swiss+side:8:1+drift:6:2`.
ghost use Rattle.std.specs.Prelude.{◌≡◌};
ghost use Rattle.pile.specs.Reading.{layer_in, rules_in, ReadAs};

use crate::choice::{LayerChoice, LayerKind};
use crate::guideline::Guideline;
use crate::pile::Pile;
use crate::reasons::{Reason, RulesError};
use std::alloc::Global;
use text::{Parts, number};

// The layer that a part of the text names.
fn layer_in(part: &[u8]) -> Result<LayerChoice, Reason>
    ensures { result ≡ layer_in part.now }
{
    let mut fields = Parts::new(b':', part);
    let (Some(name), Some(k), Some(level), None) = (
        fields.next(),
        fields.next(),
        fields.next(),
        fields.next(),
    ) else {
        return Err(Reason::WrongFields);
    };
    Ok(LayerChoice {
        kind: LayerKind::try_from(name.bytes)?,
        k: number(k.bytes).ok_or(Reason::WrongK)?,
        level: number(level.bytes).ok_or(Reason::WrongLevel)?,
    })
}

// The pile that a text names.
pub fn read_rules(heap: Global, text: &[u8]) -> Result<Pile<Guideline>, RulesError>
    ensures { ReadAs (rules_in text.now) result }
{
    let mut parts = Parts::new(b'+', text);
    // each text has a first part
    let first = parts.next().unwrap();
    let base = Guideline::try_from(first.bytes).map_err(|reason| RulesError::Wrong {
        place: first.place,
        reason,
    })?;
    let mut pile = Pile::new(heap, base);
    for part in parts {
        let layer = layer_in(part.bytes).map_err(|reason| RulesError::Wrong {
            place: part.place,
            reason,
        })?;
        pile.lay(layer)?;
    }
    Ok(pile)
}
