// A rule of the house's own: at least its level, when its condition holds of the newest k deviations.
ghost use Rattle.std.specs.Prelude.{◌≡◌};
ghost use Rattle.rulebook.specs.HouseRules.{counted_k, counted_level, holds_of_newest, house_rule, raised_by};

use crate::conditions::Condition;
use crate::verdict::Verdict;

// A condition with its k and its level. The k is kept as it was given, and counts as `counted_k` says.
#[derive(Clone, Copy)]
pub struct HouseRule<C> {
    pub(crate) condition: C,
    pub(crate) k: u32,
    pub(crate) level: Verdict,
}

// A k below 5 counts as 5, above 12 as 12.
fn counted_k(k: u32) -> usize
    ensures { result ≡ counted_k k }
{
    k.clamp(5, 12) as usize
}

// A level is 1 or 2; any other number counts as 1. It is a number, since a narrower type would ask more of callers; and no
// `From<u32>`, since 0 counts as a warning here, while the verdict of number 0 is fit.
fn counted_level(level: u32) -> Verdict
    ensures { result ≡ counted_level level }
{
    match level {
        2 => Verdict::Alarm,
        _ => Verdict::Warning,
    }
}

// Whether there are k deviations and the condition holds of the newest k.
fn holds_of_newest<C: Condition>(condition: &C, k: usize, window: &[i32]) -> bool
    ensures { result ≡ holds_of_newest (C.found condition.now) k window.now }
{
    window
        .get(..k)
        .is_some_and(|newest| condition.holds(newest))
}

impl<C: Condition> HouseRule<C> {
    // The level is a number: a narrower type would ask more of callers.
    pub fn new(condition: C, k: u32, level: u32) -> HouseRule<C>
        ensures { result ≡ house_rule condition k level }
    {
        HouseRule {
            condition,
            k,
            level: counted_level(level),
        }
    }

    // The verdict that the rule makes of the one below it.
    pub fn raise(&self, window: &[i32], below: Verdict) -> Verdict
        ensures { result ≡ raised_by C.found self.now window.now below }
    {
        if holds_of_newest(&self.condition, counted_k(self.k), window) {
            self.level.higher(below)
        } else {
            below
        }
    }
}
