// The German rule: alarm when the newest control is outside three standard deviations.
ghost use Rattle.std.specs.Prelude.{◌≡◌};
ghost use Rattle.rulebook.specs.German.{german};
ghost use Rattle.std.proofs.Common.{rules};

use crate::interface::Rulebook;
use crate::outside::is_newest_outside;
use crate::verdict::Verdict;

#[derive(Clone, Copy)]
pub struct German;

impl Rulebook for German {
    ghost meaning = { λ _. german };

    ghost lawful = { Prim.search rules };

    fn judge(&mut self, unit: u32, window: &[i32]) -> Verdict {
        if is_newest_outside(3, unit, window) {
            Verdict::Alarm
        } else {
            Verdict::Fit
        }
    }
}
