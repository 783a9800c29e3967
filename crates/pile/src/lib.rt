// A pile of rules chosen at run time: a guideline and layers on top, read from a text.
#![tactic(auto)]

mod choice;
mod guideline;
mod names;
mod pile;
mod reading;
mod reasons;

pub use choice::{LayerChoice, LayerKind};
pub use guideline::Guideline;
pub use pile::Pile;
pub use reading::read_rules;
pub use reasons::{Reason, RulesError};
