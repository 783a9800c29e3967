// How far a control value may lie from its target: the table of tolerances, the limit, the deviation.
#![tactic(auto)]

mod deviations;
mod examples;
mod limits;
mod table;

pub use deviations::{deviation, is_outside};
pub use examples::{WorkedLimit, worked_limits};
pub use limits::limit;
pub use table::{ToleranceRow, is_listed, lookup};
