// A sheet that is right as a whole: its header, with rows that lie within its bytes.
ghost use Rattle.std.specs.Prelude.{◌≡◌, ◌<◌, ◌≤◌, length, IfOk};
ghost use Rattle.sheet.specs.Header.{header_of};
ghost use Rattle.sheet.specs.Fields.{row_place, row_fields};
ghost use Rattle.sheet.specs.Acceptance.{whole_refusal, at_row};
ghost use Rattle.sheet.specs.Refusals.{refused_with};

use crate::fields::{Fields, split_fields};
use crate::header::{Header, split_header};
use crate::refusals::Refusal;

#[derive(Clone, Copy)]
pub(crate) struct Layout<'a> {
    pub bytes: &'a [u8],
    pub header: Header,
    ghost at_front: { header ≡ header_of bytes.now },
    ghost rows_within: { row_place header header.row_count ≤ length bytes.now },
}

impl<'a> Layout<'a> {
    // The layout of the sheet, or what is wrong with it as a whole.
    #[tactic(auto, using(crate::proofs::Accepted::short_refused, crate::proofs::Accepted::rows_within))]
    pub(crate) fn new(bytes: &'a [u8]) -> Result<Self, Refusal>
        ensures refusal { refused_with result ≡ at_row 0 (whole_refusal bytes.now (header_of bytes.now)) }
        ensures bytes { IfOk result (λ x. x.bytes.now ≡ bytes.now) }
    {
        let (header, _) = split_header(bytes).ok_or(Refusal::WrongLength)?;
        header.check_whole(bytes)?;
        Ok(Layout { bytes, header })
    }

    pub(crate) fn row_count(&self) -> u32
        ensures { result ≡ self.now.header.row_count }
    {
        u32::from(self.header.row_count)
    }

    // The fields of the row of that number, counted from 0. Three methods ask that a number is at most the count, or below it: a
    // type that says so would be made anew at each turn of their loops.
    pub(crate) fn fields(&self, row: u32) -> Fields
        requires { row < self.now.header.row_count }
        ensures { result ≡ row_fields self.now.bytes.now self.now.header row }
    {
        let (fields, _) = split_fields(&self.bytes[self.header.row_place(row)..]).unwrap();
        fields
    }
}
