// What the program says of a package insert.
ghost use Rattle.std.specs.Prelude.{◌≡◌, IfOk, Some, string_bytes};
ghost use Rattle.sheet.specs.Refusals.{told, refusal_words};
ghost use Rattle.sheet.specs.Reader.{sheet_bytes};
ghost use Rattle.nivzolda.specs.Inserts.{accepted_text};
ghost use Rattle.nivzolda.specs.Lines.{refused_line, row_line};
ghost use Rattle.nivzolda.specs.Reports.{Reports};

use crate::decimal::Hundredths;
use sheet::{Refusal, Row, Sheet, read};
use std::alloc::{AllocError, Global};
use std::fmt;

// The line for a sheet that is refused.
pub(crate) fn refused_line(heap: Global, refusal: &Refusal) -> Result<String, AllocError>
    ensures { IfOk result (λ t. string_bytes t ≡ refused_line (told refusal.now) (refusal_words refusal.now)) }
{
    let number = refusal.number();
    let row = refusal.row();
    format!(in heap; "refused {number} at row {row}: {refusal}\n")
}

// The line for a row of the sheet.
#[derive(Clone, Copy)]
struct RowLine<'a> {
    number: u32,
    label: &'a str,
    row: Row,
    place: usize,
}

impl fmt::Display for RowLine<'_> {
    ghost output = { λ x. Some (row_line x.number x.label.now x.row x.place) };

    fn fmt<W: fmt::Write>(&self, f: &mut fmt::Formatter<W>) -> fmt::Result {
        let number = self.number;
        let label = self.label;
        let table = self.row.table;
        let target = Hundredths(self.row.target);
        write!(f, "row {number} {label} table {table} target {target}")?;
        let lower = Hundredths(self.row.lower);
        let upper = Hundredths(self.row.upper);
        let last = self.row.last_minute;
        let limit = self.row.limit;
        let place = self.place;
        writeln!(
            f,
            " ends {lower} {upper} last minute {last} limit {limit} name at {place}"
        )
    }
}

fn accepted(heap: Global, sheet: &Sheet) -> Result<String, AllocError>
    ensures { IfOk result (λ t. string_bytes t ≡ accepted_text (sheet_bytes sheet.now)) }
{
    let rows = sheet.row_count();
    let mut text = format!(in heap; "accepted, {rows} rows\n")?;
    // by number: it is printed, and a sheet hands out a row and a name by it, so that no chain is plainer
    for number in 0..rows {
        let name = sheet.name(number).unwrap();
        let line = RowLine {
            number,
            label: name.text(),
            row: sheet.row(number).unwrap(),
            place: name.place,
        };
        write!(text, "{line}")?;
    }
    Ok(text)
}

// What the program prints: what is in the sheet, or why it is refused.
pub(crate) fn report(heap: Global, bytes: &[u8]) -> Result<String, AllocError>
    ensures { IfOk result (λ t. Reports bytes.now (accepted_text bytes.now) (string_bytes t)) }
{
    match read(bytes) {
        Ok(sheet) => accepted(heap, &sheet),
        Err(refusal) => refused_line(heap, &refusal),
    }
}

#[cfg(test)]
pub(crate) mod tests {
    use super::*;
    use std::test::Fail;

    // The sheet of one potassium row, with its name right after it.
    pub(crate) const K: &[u8] =
        b"\x00\x20\x00\x01\x00\x0a\x00\x01\x00\x1f\x00\x23\x00\x00\x01\x90\x00\x00\x01\x5e\x00\x00\x01\xc2\x00\x01\x86\xa0\x01\x00\x00K";

    #[test]
    fn one_row_is_printed(rt: HostRuntime) -> Result<(), Fail> {
        let text = report(rt.alloc(), K)?;
        assert_eq!(rt;
            text.as_str(),
            "accepted, 1 rows\nrow 0 K table 35 target 4.00 ends 3.50 4.50 last minute 100000 limit 18000 name at 31\n"
        );
        Ok(())
    }

    // The demo insert, as `data/insert.bin` has it.
    const INSERT: &[u8] =
        b"\x00\xb1\x00\x07\x00\x0a\x00\x14\x00\x9d\x00\x23\x00\x00\x01\x90\x00\x00\x01\x5e\x00\x00\x01\xc2\x00\x01\x86\xa0\x01\x00\x00\x00\x2b\x00\x00\x36\xb0\x00\x00\x35\x20\x00\x00\x38\x40\x00\x01\x86\xa0\x02\x00\x01\x00\x0d\x00\x00\x1b\x58\x00\x00\x1a\xf4\x00\x00\x1c\x20\x00\x01\x86\xa0\x02\x00\x03\x00\x19\x00\x00\x25\x1c\x00\x00\x1f\x40\x00\x00\x2a\xf8\x00\x01\x5f\x90\x03\x00\x05\x00\x1b\x00\x00\x05\x64\x00\x00\x05\x14\x00\x00\x05\xb4\x00\x01\x5f\x90\x02\x00\x08\x00\x13\x00\x00\x00\x65\x00\x00\x00\x32\x00\x00\x00\xc8\x00\x00\xea\x60\x07\x00\x0a\x00\x00\x00\x00\x01\xf4\x00\x00\x01\x7c\x00\x00\x02\x6c\x00\x00\xea\x60\x03\x00\x11KNACLGLUHBDIGOXINCRP";

    #[test]
    fn each_row_is_printed(rt: HostRuntime) -> Result<(), Fail> {
        let text = report(rt.alloc(), INSERT)?;
        assert_eq!(rt;
            text.as_str(),
            "accepted, 7 rows\nrow 0 K table 35 target 4.00 ends 3.50 4.50 last minute 100000 limit 18000 name at 157\nrow 1 NA table 43 target 140.00 ends 136.00 144.00 last minute 100000 limit 400000 name at 158\nrow 2 CL table 13 target 70.00 ends 69.00 72.00 last minute 100000 limit 100000 name at 160\nrow 3 GLU table 25 target 95.00 ends 80.00 110.00 last minute 90000 limit 1045000 name at 162\nrow 4 HB table 27 target 13.80 ends 13.00 14.60 last minute 90000 limit 55200 name at 165\nrow 5 DIGOXIN table 19 target 1.01 ends 0.50 2.00 last minute 60000 limit 14140 name at 167\nrow 6 CRP table 0 target 5.00 ends 3.80 6.20 last minute 60000 limit 120000 name at 174\n"
        );
        Ok(())
    }

    #[test]
    fn each_refusal_has_its_words(rt: HostRuntime) -> Result<(), Fail> {
        let cases = [
            (
                Refusal::WrongLength,
                "refused 1 at row 0: under 10 or over 4096 bytes, or not the stated length\n",
            ),
            (
                Refusal::WrongRowCount,
                "refused 2 at row 0: no rows, or more than 16\n",
            ),
            (
                Refusal::WrongLayout,
                "refused 3 at row 0: rows or names start in the header, end beyond the sheet, or overlap\n",
            ),
            (
                Refusal::UnknownTable { row: 1 },
                "refused 4 at row 1: the table number is neither 0 nor in the table\n",
            ),
            (
                Refusal::WrongRange { row: 2 },
                "refused 5 at row 2: the target is 0, the ends do not enclose it, or the upper end is over 999.99\n",
            ),
            (
                Refusal::WrongName { row: 3 },
                "refused 6 at row 3: the name is not 1 to 12 bytes, lies outside its block, or has a byte other than A to Z and 0 to 9\n",
            ),
            (
                Refusal::RepeatedName { row: 15 },
                "refused 7 at row 15: an earlier row has that name\n",
            ),
        ];
        for (refusal, line) in cases {
            let text = refused_line(rt.alloc(), &refusal)?;
            assert_eq!(rt; text.as_str(), line);
        }
        Ok(())
    }
}
