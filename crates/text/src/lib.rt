// Texts that a person types, taken apart exactly: parts between separators, numbers, values with two decimals.
// They come as bytes, since what is typed need not be text; a `&str` would ask more of callers.
#![tactic(auto)]

mod numbers;
mod parts;

pub use numbers::{hundredths, number};
pub use parts::{Part, Parts, end_of_part, is_same, split_once};
