// Where the rows and the names lie in the sheet.
ghost use Rattle.std.specs.Prelude.{◌≡◌};
ghost use Rattle.sheet.specs.Blocks.{rows_block, names_block, misplaced, apart, wrong_layout};

use crate::header::Header;
use std::ops::Range;

// Whether the block starts in the header or ends beyond the sheet.
fn is_misplaced(block: &Range<usize>, size: usize) -> bool
    ensures { result ≡ misplaced block.now size }
{
    block.start < 10 || block.end > size
}

// Whether one of the two ends at or before the other's start.
fn are_apart(a: &Range<usize>, b: &Range<usize>) -> bool
    ensures { result ≡ apart a.now b.now }
{
    a.end <= b.start || b.end <= a.start
}

// A block's start and end count from the sheet's first byte.
impl Header {
    fn rows_block(self) -> Range<usize>
        ensures { result ≡ rows_block self }
    {
        let start = usize::from(self.rows_offset);
        start..self.row_place(u32::from(self.row_count))
    }

    fn names_block(self) -> Range<usize>
        ensures { result ≡ names_block self }
    {
        let start = usize::from(self.names_offset);
        start..start + usize::from(self.names_length)
    }

    pub(crate) fn is_wrong_layout(self, size: usize) -> bool
        ensures { result ≡ wrong_layout self size }
    {
        let rows = self.rows_block();
        let names = self.names_block();
        is_misplaced(&rows, size) || is_misplaced(&names, size) || !are_apart(&rows, &names)
    }
}
