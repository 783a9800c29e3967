// Hands out the rows and the names of a sheet that was accepted.
ghost use Rattle.std.specs.Prelude.{◌≡◌, None, false, IfSome};
ghost use Rattle.sheet.specs.Acceptance.{refusal_of};

use crate::fields::Fields;
use crate::layout::Layout;
use crate::rows::{Name, Row};

// A sheet that was accepted. It borrows the bytes.
#[derive(Clone, Copy)]
pub struct Sheet<'a> {
    pub(crate) layout: Layout<'a>,
    ghost accepted: { refusal_of layout.bytes.now ≡ None },
}

impl<'a> Sheet<'a> {
    ghost use Rattle.sheet.specs.Reader.{sheet_bytes, row_count, HandsOut, RightFields, RightRow, RightName};
    ghost use Rattle.sheet.specs.Names.{has_other_byte};
    ghost use Rattle.sheet.specs.Rows.{InRange, RowInRange};

    pub fn row_count(&self) -> u32
        ensures { result ≡ row_count (sheet_bytes self.now) }
    {
        self.layout.row_count()
    }

    // The fields of the row of that number.
    #[tactic(auto, using(crate::proofs::Accepted::row_accepted))]
    fn find(&self, row: u32) -> Option<Fields>
        ensures fields { HandsOut RightFields self.now row result }
        ensures range { IfSome result InRange }
    {
        if row >= self.row_count() {
            return None;
        }
        Some(self.layout.fields(row))
    }

    // The row of that number, counted from 0.
    pub fn row(&self, row: u32) -> Option<Row>
        ensures row { HandsOut RightRow self.now row result }
        ensures range { IfSome result RowInRange }
    {
        Some(self.find(row)?.to_row())
    }

    // The name of the row of that number, as a part of the sheet, of A to Z and 0 to 9.
    #[tactic(auto, using(crate::proofs::Accepted::row_accepted))]
    pub fn name(&self, row: u32) -> Option<Name<'a>>
        ensures name { HandsOut RightName self.now row result }
        ensures letters { IfSome result (λ name. has_other_byte name.bytes.now ≡ false) }
    {
        let fields = self.find(row)?;
        Some(Name {
            place: self.layout.header.name_place(fields),
            bytes: self.layout.name_bytes(fields),
        })
    }
}
