// The header: five 16-bit fields at the front of the sheet.
ghost use Rattle.std.specs.Prelude.{◌≡◌, ◌<◌, ◌≤◌, length, drop, MatchOption};
ghost use Rattle.sheet.specs.Header.{header_of};

// Offsets count from the sheet's first byte.
#[derive(Clone, Copy)]
pub(crate) struct Header {
    pub sheet_length: u16,
    pub row_count: u16,
    pub rows_offset: u16,
    pub names_length: u16,
    pub names_offset: u16,
}

// The header and the bytes after it; nothing where there are fewer than ten bytes.
// Kept in this form, which docs/DECISIONS.md lists: a pattern over the bytes that hands out the rest of them.
#[tactic(auto, using(std::proofs::lemmas::List::take_rest), unfolding(crate::specs::Header::header_of))]
pub(crate) fn split_header(bytes: &[u8]) -> Option<(Header, &[u8])>
    ensures { MatchOption result (length bytes.now < 10) (λ x. (10 ≤ length bytes.now) × (x.0 ≡ header_of bytes.now) × (x.1.now ≡ drop 10 bytes.now)) }
{
    let [s1, s0, c1, c0, r1, r0, l1, l0, o1, o0, rest @ ..] = bytes else {
        return None;
    };
    let header = Header {
        sheet_length: u16::from_be_bytes([*s1, *s0]),
        row_count: u16::from_be_bytes([*c1, *c0]),
        rows_offset: u16::from_be_bytes([*r1, *r0]),
        names_length: u16::from_be_bytes([*l1, *l0]),
        names_offset: u16::from_be_bytes([*o1, *o0]),
    };
    Some((header, rest))
}
