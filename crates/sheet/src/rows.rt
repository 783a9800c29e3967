// What a sheet hands out: a row with its limit, and a name with its place.
ghost use Rattle.std.specs.Prelude.{◌≡◌, false, [], IsUtf8};
ghost use Rattle.sheet.specs.Names.{has_other_byte};
ghost use Rattle.sheet.specs.Rows.{InRange, RowInRange, row_from};

use crate::fields::Fields;
use tolerance::limit;

// What the sheet says of one assay. Target and ends are in hundredths of the unit; the limit, in thousandths of a
// hundredth, stands for three standard deviations.
#[derive(Clone, Copy)]
pub struct Row {
    pub table: u16,
    pub target: u32,
    pub lower: u32,
    pub upper: u32,
    pub last_minute: u32,
    pub limit: u32,
}

// An assay's name: a part of the sheet, and where it starts, from the sheet's first byte. A sheet hands out names of A to Z and
// 0 to 9; the type does not ask it, so that a caller may make a name of any bytes.
#[derive(Clone, Copy)]
pub struct Name<'a> {
    pub place: usize,
    pub bytes: &'a [u8],
}

impl<'a> Name<'a> {
    // The same bytes as text, where they are UTF-8, as those of each name that a sheet hands out; else the empty text.
    #[tactic(auto, using(crate::proofs::Text::name_is_text))]
    pub fn text(&self) -> &'a str
        ensures letters { has_other_byte self.now.bytes.now ≡ false → result.now ≡ self.now.bytes.now }
        ensures text { IsUtf8 self.now.bytes.now → result.now ≡ self.now.bytes.now }
        ensures none { ¬ (IsUtf8 self.now.bytes.now) → result.now ≡ [] }
    {
        std::str::from_utf8(self.bytes).unwrap_or("")
    }
}

impl Fields {
    // The row that the fields make. The limit of an assay whose ends enclose the target and lie in range fits 32 bits.
    #[tactic(auto, using(tolerance::proofs::LimitBound::limit_bounded))]
    pub(crate) fn to_row(self) -> Row
        requires { InRange self }
        ensures row { result ≡ row_from self }
        ensures range { RowInRange result }
    {
        Row {
            table: self.table,
            target: self.target,
            lower: self.lower,
            upper: self.upper,
            last_minute: self.last_minute,
            limit: limit(self.table, self.target, self.lower, self.upper) as u32,
        }
    }
}

#[cfg(test)]
mod tests {
    use super::*;
    use std::test::Fail;

    #[test]
    fn a_name_may_be_made_of_any_bytes(rt: HostRuntime) -> Result<(), Fail> {
        for (bytes, text) in [(b"K".as_slice(), "K"), (b"\xff".as_slice(), "")] {
            let name = Name { place: 31, bytes };
            assert_eq!(rt; name.text(), text);
        }
        Ok(())
    }
}
