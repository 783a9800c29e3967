// The package insert of the controls, as bytes: read whole, or refused with a number and a row.
#![tactic(auto)]

mod acceptance;
mod blocks;
mod checks;
mod fields;
mod header;
mod layout;
mod names;
mod reader;
mod refusals;
mod rows;

pub use acceptance::read;
pub use reader::Sheet;
pub use refusals::Refusal;
pub use rows::{Name, Row};
