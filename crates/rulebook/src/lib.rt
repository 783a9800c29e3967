// Rulebooks: what a series of controls says of an assay. Fit, warning or alarm.
#![tactic(auto)]

mod conditions;
mod german;
mod house_rule;
mod interface;
mod layer;
mod outside;
mod series;
mod swiss;
mod verdict;

pub use conditions::{Condition, Drift, Side};
pub use german::German;
pub use house_rule::HouseRule;
pub use interface::Rulebook;
pub use layer::{DriftLayer, Layer, SideLayer, drift_layer, side_layer};
pub use outside::is_newest_outside;
pub use series::judge_series;
pub use swiss::Swiss;
pub use verdict::Verdict;
