// A layer on a rulebook: a house rule over the verdict below. It can raise a verdict, and never lowers one.
ghost use Rattle.std.specs.Prelude.{◌≡◌};
ghost use Rattle.rulebook.specs.Layers.{layered, side_layer, drift_layer, layer_meaning};
ghost use Rattle.rulebook.specs.Meanings.{LiesOn};
ghost use Rattle.rulebook.specs.LayersLawful.{layered_lawful};

use crate::conditions::{Condition, Drift, Side};
use crate::house_rule::HouseRule;
use crate::interface::Rulebook;
use crate::verdict::Verdict;

// A house rule on the rulebook below it.
#[derive(Drop)]
pub struct Layer<C, B> {
    rule: HouseRule<C>,
    below: B,
}

pub type SideLayer<B> = Layer<Side, B>;

pub type DriftLayer<B> = Layer<Drift, B>;

impl<C: Condition, B: Rulebook> Rulebook for Layer<C, B> {
    ghost meaning = { layer_meaning C.found B.meaning };

    ghost lawful = { λ b. layered_lawful (C.found b.rule.condition) b.rule.k b.rule.level (B.meaning b.below) (B.lawful b.below) };

    fn judge(&mut self, unit: u32, window: &[i32]) -> Verdict {
        let below = self.below.judge(unit, window);
        self.rule.raise(window, below)
    }
}

impl<C: Condition, B: Rulebook> Layer<C, B> {
    // A house rule laid on a rulebook. It means the rule over what lies below, and is never milder than that.
    pub fn new(rule: HouseRule<C>, below: B) -> Layer<C, B>
        ensures meaning { ⟦<Layer<C, B> as Rulebook>⟧.meaning result ≡ layered (C.found rule.condition) rule.k rule.level (B.meaning below) }
        ensures never_milder { LiesOn (⟦<Layer<C, B> as Rulebook>⟧.meaning result) (B.meaning below) }
    {
        Layer { rule, below }
    }

    // The rulebook below. The layer is never milder than it.
    pub fn below(&self) -> &B
        ensures below { result.now ≡ self.now.below }
        ensures never_milder { LiesOn (⟦<Layer<C, B> as Rulebook>⟧.meaning self.now) (B.meaning result.now) }
    {
        &self.below
    }
}

// The side layer: when the newest k deviations are all above 0 or all below 0. Its level is a number: a narrower type would ask
// more of callers. It stands beside `Layer::new`, since only a function at this type can promise to mean the side layer.
pub fn side_layer<B: Rulebook>(k: u32, level: u32, below: B) -> SideLayer<B>
    ensures meaning { ⟦<SideLayer<B> as Rulebook>⟧.meaning result ≡ side_layer k level (B.meaning below) }
    ensures never_milder { LiesOn (⟦<SideLayer<B> as Rulebook>⟧.meaning result) (B.meaning below) }
{
    Layer::new(HouseRule::new(Side, k, level), below)
}

// The drift layer: when the newest k deviations, from oldest to newest, rise strictly or fall strictly. Its level is a number, and
// it stands beside `Layer::new`, for the same reasons.
pub fn drift_layer<B: Rulebook>(k: u32, level: u32, below: B) -> DriftLayer<B>
    ensures meaning { ⟦<DriftLayer<B> as Rulebook>⟧.meaning result ≡ drift_layer k level (B.meaning below) }
    ensures never_milder { LiesOn (⟦<DriftLayer<B> as Rulebook>⟧.meaning result) (B.meaning below) }
{
    Layer::new(HouseRule::new(Drift, k, level), below)
}
