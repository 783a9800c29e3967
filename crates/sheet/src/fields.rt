// The fields of a row: 21 bytes for each assay, one row after another.
ghost use Rattle.std.specs.Prelude.{◌≡◌, ◌<◌, ◌≤◌, length, drop, MatchOption};
ghost use Rattle.sheet.specs.Fields.{fields_of, row_place};

use crate::header::Header;

// Target and ends are in hundredths of the unit, the offset counts from the start of the name block.
#[derive(Clone, Copy)]
pub(crate) struct Fields {
    pub table: u16,
    pub target: u32,
    pub lower: u32,
    pub upper: u32,
    pub last_minute: u32,
    pub name_length: u8,
    pub name_offset: u16,
}

// The fields of the row at the front and the bytes after it; nothing where there are fewer than 21 bytes.
// Kept in this form, which docs/DECISIONS.md lists: a pattern over the bytes that hands out the rest of them.
#[tactic(auto, using(std::proofs::lemmas::List::take_rest), unfolding(crate::specs::Fields::fields_of))]
pub(crate) fn split_fields(bytes: &[u8]) -> Option<(Fields, &[u8])>
    ensures { MatchOption result (length bytes.now < 21) (λ x. (21 ≤ length bytes.now) × (x.0 ≡ fields_of bytes.now) × (x.1.now ≡ drop 21 bytes.now)) }
{
    let [
        n1,
        n0,
        t3,
        t2,
        t1,
        t0,
        l3,
        l2,
        l1,
        l0,
        u3,
        u2,
        u1,
        u0,
        m3,
        m2,
        m1,
        m0,
        name_length,
        o1,
        o0,
        rest @ ..,
    ] = bytes
    else {
        return None;
    };
    let fields = Fields {
        table: u16::from_be_bytes([*n1, *n0]),
        target: u32::from_be_bytes([*t3, *t2, *t1, *t0]),
        lower: u32::from_be_bytes([*l3, *l2, *l1, *l0]),
        upper: u32::from_be_bytes([*u3, *u2, *u1, *u0]),
        last_minute: u32::from_be_bytes([*m3, *m2, *m1, *m0]),
        name_length: *name_length,
        name_offset: u16::from_be_bytes([*o1, *o0]),
    };
    Some((fields, rest))
}

impl Header {
    // Where a row starts, from the sheet's first byte.
    pub(crate) fn row_place(self, row: u32) -> usize
        ensures { result ≡ row_place self row }
    {
        usize::from(self.rows_offset) + 21 * row as usize
    }
}
