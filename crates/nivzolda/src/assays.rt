// Which row of the sheet an argument means: a name of the sheet, or `@` and a row number.
ghost use Rattle.std.specs.Prelude.{◌≡◌, IfSome};
ghost use Rattle.sheet.specs.Reader.{sheet_bytes};
ghost use Rattle.sheet.specs.Rows.{RowInRange};
ghost use Rattle.nivzolda.specs.Assays.{is_named, row_named, row_numbered, row_meant, assay_row};

use sheet::{Row, Sheet};
use text::number;

// Whether there is a row of that number, and it has that name.
fn is_named(sheet: &Sheet, name: &[u8], row: u32) -> bool
    ensures { result ≡ is_named (sheet_bytes sheet.now) name.now row }
{
    sheet.name(row).is_some_and(|own| own.bytes == name)
}

fn row_named(sheet: &Sheet, name: &[u8]) -> Option<u32>
    ensures { result ≡ row_named (sheet_bytes sheet.now) name.now }
{
    (0..sheet.row_count()).find(|row| is_named(sheet, name, *row))
}

fn row_numbered(sheet: &Sheet, digits: &[u8]) -> Option<u32>
    ensures { result ≡ row_numbered (sheet_bytes sheet.now) digits.now }
{
    let row = number(digits)?;
    (row < sheet.row_count()).then_some(row)
}

fn row_meant(sheet: &Sheet, assay: &[u8]) -> Option<u32>
    ensures { result ≡ row_meant (sheet_bytes sheet.now) assay.now }
{
    match assay {
        [b'@', digits @ ..] => row_numbered(sheet, digits),
        _ => row_named(sheet, assay),
    }
}

// The row that an argument means. It says again that the row is in range: as a fact of the type `Row` it would ask for a proof
// wherever a definition writes a row.
#[tactic(auto, using(crate::proofs::RowsMeant::row_is_there))]
pub(crate) fn assay_row(sheet: &Sheet, assay: &[u8]) -> Option<Row>
    ensures row { result ≡ assay_row (sheet_bytes sheet.now) assay.now }
    ensures range { IfSome result RowInRange }
{
    sheet.row(row_meant(sheet, assay)?)
}
