// A layer chosen at run time.
ghost use Rattle.std.specs.Prelude.{◌≡◌};
ghost use Rattle.pile.specs.Choices.{condition_of_kind, raised_by};

use rulebook::{Condition, Drift, HouseRule, Side, Verdict};

// Which condition the layer looks for.
#[derive(Clone, Copy, Debug, PartialEq, Eq)]
pub enum LayerKind {
    Side,
    Drift,
}

impl Condition for LayerKind {
    ghost found = { condition_of_kind };

    fn holds(&self, newest: &[i32]) -> bool {
        match self {
            LayerKind::Side => Side.holds(newest),
            LayerKind::Drift => Drift.holds(newest),
        }
    }
}

// Which layer, and its k and level as they are written: what is read back is what was typed, and any number may be. A
// `HouseRule` is the rule that it makes, with its level counted; the laws of a pile speak of the numbers.
#[derive(Clone, Copy, Debug, PartialEq, Eq)]
pub struct LayerChoice {
    pub kind: LayerKind,
    pub k: u32,
    pub level: u32,
}

impl LayerChoice {
    // The verdict that the layer makes of the one below it.
    pub(crate) fn raise(&self, window: &[i32], below: Verdict) -> Verdict
        ensures { result ≡ raised_by self.now window.now below }
    {
        HouseRule::new(self.kind, self.k, self.level).raise(window, below)
    }
}
