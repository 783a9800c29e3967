// Accepts a sheet, or says the first thing that is wrong with it: the sheet as a whole, then row by row.
ghost use Rattle.std.specs.Prelude.{◌≡◌, ◌<◌, IfOk};
ghost use Rattle.sheet.specs.Below.{first_below};
ghost use Rattle.sheet.specs.Acceptance.{refusal_of, refusal_at, whole_refusal, at_row};
ghost use Rattle.sheet.specs.Refusals.{refused_with};
ghost use Rattle.sheet.specs.Reader.{sheet_bytes, Accepted};

use crate::header::Header;
use crate::layout::Layout;
use crate::reader::Sheet;
use crate::refusals::Refusal;

impl Header {
    // Tests the sheet as a whole.
    #[tactic(auto, unfolding(crate::specs::Acceptance::whole_refusal))]
    pub(crate) fn check_whole(self, bytes: &[u8]) -> Result<(), Refusal>
        ensures { refused_with result ≡ at_row 0 (whole_refusal bytes.now self) }
    {
        if self.is_wrong_length(bytes.len()) {
            return Err(Refusal::WrongLength);
        }
        if self.is_wrong_row_count() {
            return Err(Refusal::WrongRowCount);
        }
        if self.is_wrong_layout(bytes.len()) {
            return Err(Refusal::WrongLayout);
        }
        Ok(())
    }
}

impl Layout<'_> {
    // Tests one row.
    #[tactic(auto, unfolding(crate::specs::Acceptance::row_refusal))]
    fn check_row(&self, row: u32) -> Result<(), Refusal>
        requires { row < self.now.header.row_count }
        ensures { refused_with result ≡ refusal_at self.now.bytes.now self.now.header row }
    {
        let fields = self.fields(row);
        if fields.is_unknown_table() {
            return Err(Refusal::UnknownTable { row });
        }
        if fields.is_wrong_range() {
            return Err(Refusal::WrongRange { row });
        }
        if self.is_wrong_name(fields) {
            return Err(Refusal::WrongName { row });
        }
        if self.is_repeated_name(fields, row) {
            return Err(Refusal::RepeatedName { row });
        }
        Ok(())
    }

    // Tests each row. A loop: over `try_for_each` the proof of which row is refused stays open.
    #[tactic(auto, using(crate::proofs::Below::first_found))]
    fn accept_rows(&self) -> Result<(), Refusal>
        ensures { refused_with result ≡ first_below (refusal_at self.now.bytes.now self.now.header) self.now.header.row_count }
    {
        for row in 0..self.row_count() {
            self.check_row(row)?;
        }
        Ok(())
    }
}

// Accepts the sheet, or says the first thing that is wrong with it.
pub fn read(bytes: &[u8]) -> Result<Sheet<'_>, Refusal>
    ensures refusal { refused_with result ≡ refusal_of bytes.now }
    ensures sheet { IfOk result (λ x. (sheet_bytes x ≡ bytes.now) × Accepted x) }
{
    let layout = Layout::new(bytes)?;
    layout.accept_rows()?;
    Ok(Sheet { layout })
}
