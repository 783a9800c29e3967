// The Swiss rule: alarm when the newest control is outside three standard deviations, or the newest two are both outside
// two; warning when the newest is outside two.
ghost use Rattle.std.specs.Prelude.{◌≡◌};
ghost use Rattle.rulebook.specs.Swiss.{swiss};
ghost use Rattle.std.proofs.Common.{rules};

use crate::interface::Rulebook;
use crate::outside::{are_newest_two_outside, is_newest_outside};
use crate::verdict::Verdict;

#[derive(Clone, Copy)]
pub struct Swiss;

impl Rulebook for Swiss {
    ghost meaning = { λ _. swiss };

    ghost lawful = { Prim.search rules };

    fn judge(&mut self, unit: u32, window: &[i32]) -> Verdict {
        if is_newest_outside(3, unit, window) || are_newest_two_outside(2, unit, window) {
            Verdict::Alarm
        } else if is_newest_outside(2, unit, window) {
            Verdict::Warning
        } else {
            Verdict::Fit
        }
    }
}
