// One test for each thing that can be wrong with a sheet; `blocks` has that of the layout.
ghost use Rattle.std.specs.Prelude.{◌≡◌, ◌≤◌};
ghost use Rattle.sheet.specs.Checks.{wrong_length, wrong_row_count, unknown_table, wrong_range, wrong_name, repeated_name};

use crate::fields::Fields;
use crate::header::Header;
use crate::layout::Layout;
use crate::names::has_other_byte;
use tolerance::is_listed;

impl Header {
    pub(crate) fn is_wrong_length(self, size: usize) -> bool
        ensures { result ≡ wrong_length self size }
    {
        size < 10 || size > 4_096 || usize::from(self.sheet_length) != size
    }

    pub(crate) fn is_wrong_row_count(self) -> bool
        ensures { result ≡ wrong_row_count self }
    {
        self.row_count == 0 || self.row_count > 16
    }
}

impl Fields {
    pub(crate) fn is_unknown_table(self) -> bool
        ensures { result ≡ unknown_table self }
    {
        self.table != 0 && !is_listed(self.table)
    }

    pub(crate) fn is_wrong_range(self) -> bool
        ensures { result ≡ wrong_range self }
    {
        self.target == 0
            || self.lower >= self.target
            || self.upper <= self.target
            || self.upper > 99_999
    }
}

impl Layout<'_> {
    pub(crate) fn is_wrong_name(&self, fields: Fields) -> bool
        ensures { result ≡ wrong_name self.now.bytes.now self.now.header fields }
    {
        fields.name_length < 1
            || fields.name_length > 12
            || u32::from(fields.name_offset) + u32::from(fields.name_length)
                > u32::from(self.header.names_length)
            || has_other_byte(self.name_bytes(fields))
    }

    // Whether one of the rows before this one has that name.
    pub(crate) fn is_repeated_name(&self, fields: Fields, row: u32) -> bool
        requires { row ≤ self.now.header.row_count }
        ensures { result ≡ repeated_name self.now.bytes.now self.now.header fields row }
    {
        let name = self.name_bytes(fields);
        (0..row).any(|earlier| self.name_bytes(self.fields(earlier)) == name)
    }
}
