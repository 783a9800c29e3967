// Why the text of a pile is refused.
ghost use Rattle.std.specs.Prelude.{◌≡◌, Some};
ghost use Rattle.pile.specs.declared.reasons.RulesError.TheVariants.{NoMemory};
ghost use Rattle.pile.specs.Reasons.{reason_text, error_text};

use std::alloc::AllocError;
use std::error::Error;
use std::fmt;

// What is wrong with a part of the text.
#[derive(Clone, Copy, Debug, PartialEq, Eq)]
pub enum Reason {
    // the first part is neither `swiss` nor `german`
    UnknownGuideline,
    // a layer is not a name, a k and a level, joined by `:`
    WrongFields,
    // the layer's name is neither `side` nor `drift`
    UnknownLayer,
    // the k is not a number of 32 bits
    WrongK,
    // the level is not a number of 32 bits
    WrongLevel,
}

// Why a text is refused: the place of the part that is wrong, from the text's first byte, and what is wrong with it.
#[derive(Clone, Copy, Debug, PartialEq, Eq)]
pub enum RulesError {
    Wrong { place: usize, reason: Reason },
    NoMemory,
}

impl fmt::Display for Reason {
    ghost output = { λ reason. Some (reason_text reason) };

    fn fmt<W: fmt::Write>(&self, f: &mut fmt::Formatter<W>) -> fmt::Result {
        f.write_str(match self {
            Reason::UnknownGuideline => "the guideline is neither swiss nor german",
            Reason::WrongFields => "a layer is written NAME:K:LEVEL",
            Reason::UnknownLayer => "the layer is neither side nor drift",
            Reason::WrongK => "K is not a number",
            Reason::WrongLevel => "LEVEL is not a number",
        })
    }
}

impl fmt::Display for RulesError {
    ghost output = { λ error. Some (error_text error) };

    fn fmt<W: fmt::Write>(&self, f: &mut fmt::Formatter<W>) -> fmt::Result {
        match self {
            RulesError::Wrong { place, reason } => write!(f, "at {place}: {reason}"),
            RulesError::NoMemory => write!(f, "no memory"),
        }
    }
}

impl Error for Reason {}

impl Error for RulesError {}

impl From<AllocError> for RulesError {
    ghost from_gives = { λ _ r. r ≡ NoMemory };

    fn from(_error: AllocError) -> RulesError {
        RulesError::NoMemory
    }
}
