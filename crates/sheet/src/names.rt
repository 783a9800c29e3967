// The names of the assays: parts of the name block.
ghost use Rattle.std.specs.Prelude.{◌≡◌};
ghost use Rattle.sheet.specs.Names.{name_place, name_bytes, other_byte, has_other_byte};

use crate::fields::Fields;
use crate::header::Header;
use crate::layout::Layout;

// Whether the byte is none of A to Z and 0 to 9.
fn is_other_byte(byte: u8) -> bool
    ensures { result ≡ other_byte byte }
{
    !matches!(byte, b'A'..=b'Z' | b'0'..=b'9')
}

pub(crate) fn has_other_byte(name: &[u8]) -> bool
    ensures { result ≡ has_other_byte name.now }
{
    name.iter().any(|byte| is_other_byte(*byte))
}

impl Header {
    // Where the name of a row starts, from the sheet's first byte.
    pub(crate) fn name_place(self, fields: Fields) -> usize
        ensures { result ≡ name_place self fields }
    {
        usize::from(self.names_offset) + usize::from(fields.name_offset)
    }
}

impl<'a> Layout<'a> {
    // The bytes of a row's name: fewer where the sheet ends before.
    pub(crate) fn name_bytes(&self, fields: Fields) -> &'a [u8]
        ensures { result.now ≡ name_bytes self.now.bytes.now self.now.header fields }
    {
        let place = self.header.name_place(fields);
        let rest = self.bytes.get(place..).unwrap_or(&[]);
        rest.get(..usize::from(fields.name_length)).unwrap_or(rest)
    }
}
