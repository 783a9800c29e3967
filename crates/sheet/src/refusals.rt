// Why a sheet is refused. Each case has a number; those of a single row name the row.
ghost use Rattle.std.specs.Prelude.{◌≡◌, Some};
ghost use Rattle.sheet.specs.Refusals.{told, refusal_words};

use std::error::Error;
use std::fmt;

#[derive(Clone, Copy, Debug, PartialEq, Eq)]
pub enum Refusal {
    // 1: under 10 or over 4,096 bytes, or not the stated length
    WrongLength,
    // 2: no rows, or more than 16
    WrongRowCount,
    // 3: rows or names start in the header, end beyond the sheet, or overlap
    WrongLayout,
    // 4: a table number neither 0 nor in the table
    UnknownTable { row: u32 },
    // 5: the ends do not enclose the target, or lie out of range
    WrongRange { row: u32 },
    // 6: a name that is too short, too long, outside its block, or of other bytes
    WrongName { row: u32 },
    // 7: a name that an earlier row has
    RepeatedName { row: u32 },
}

impl Refusal {
    // A match: cases with fields have no numbers that `as` could read.
    pub fn number(&self) -> u32
        ensures { result ≡ (told self.now).0 }
    {
        match self {
            Refusal::WrongLength => 1,
            Refusal::WrongRowCount => 2,
            Refusal::WrongLayout => 3,
            Refusal::UnknownTable { .. } => 4,
            Refusal::WrongRange { .. } => 5,
            Refusal::WrongName { .. } => 6,
            Refusal::RepeatedName { .. } => 7,
        }
    }

    // The row that is refused; 0 where the sheet as a whole is.
    pub fn row(&self) -> u32
        ensures { result ≡ (told self.now).1 }
    {
        match self {
            Refusal::WrongLength | Refusal::WrongRowCount | Refusal::WrongLayout => 0,
            Refusal::UnknownTable { row }
            | Refusal::WrongRange { row }
            | Refusal::WrongName { row }
            | Refusal::RepeatedName { row } => *row,
        }
    }
}

// What is wrong, in words; the number and the row are left to the caller.
impl fmt::Display for Refusal {
    ghost output = { λ x. Some (refusal_words x) };

    fn fmt<W: fmt::Write>(&self, f: &mut fmt::Formatter<W>) -> fmt::Result {
        f.write_str(match self {
            Refusal::WrongLength => "under 10 or over 4096 bytes, or not the stated length",
            Refusal::WrongRowCount => "no rows, or more than 16",
            Refusal::WrongLayout =>
                "rows or names start in the header, end beyond the sheet, or overlap",
            Refusal::UnknownTable { .. } => "the table number is neither 0 nor in the table",
            Refusal::WrongRange { .. } =>
                "the target is 0, the ends do not enclose it, or the upper end is over 999.99",
            Refusal::WrongName { .. } =>
                "the name is not 1 to 12 bytes, lies outside its block, or has a byte other than A to Z and 0 to 9",
            Refusal::RepeatedName { .. } => "an earlier row has that name",
        })
    }
}

impl Error for Refusal {}

#[cfg(test)]
mod tests {
    use super::*;
    use std::test::Fail;

    #[test]
    fn a_refusal_is_printed_in_words(rt: HostRuntime) -> Result<(), Fail> {
        let refusal = Refusal::RepeatedName { row: 15 };
        let text = format!(in rt.alloc(); "{refusal}")?;
        assert_eq!(rt; text.as_str(), "an earlier row has that name");
        Ok(())
    }
}
