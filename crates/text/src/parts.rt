// The parts of a text between separators.
ghost use Rattle.std.specs.Prelude.{◌≡◌, ◌+◌, ◌^◌, ◌<◌, ◌≤◌, ◌==◌, length, position, IfSome};
ghost use Rattle.std.specs.Option.{ForSome};
ghost use Rattle.std.specs.Str.{bytes_eq};
ghost use Rattle.text.specs.Parts.{SplitOnce, part_end};

// Where the first separator stands, if there is one.
fn first_separator(separator: u8, text: &[u8]) -> Option<usize>
    ensures { result ≡ position (λ b. b == separator) text.now }
{
    text.iter().position(|byte| *byte == separator)
}

// Where the part that starts at that place ends: at the next separator, or where the text ends.
pub fn end_of_part(separator: u8, text: &[u8], start: usize) -> usize
    ensures value { result ≡ part_end separator text.now start }
    ensures within { result ≤ length text.now }
{
    let start = start.min(text.len());
    let rest = &text[start..];
    start + first_separator(separator, rest).unwrap_or(rest.len())
}

// What stands before the first separator and what behind it, where there is one.
pub fn split_once(separator: u8, text: &[u8]) -> Option<(&[u8], &[u8])>
    ensures cut { SplitOnce separator text.now result }
    ensures lengths { IfSome result (λ x. length x.0.now + length x.1.now + 1 ≡ length text.now) }
{
    let end = first_separator(separator, text)?;
    Some((&text[..end], &text[end + 1..]))
}

// Whether two texts have the same bytes.
pub fn is_same(a: &[u8], b: &[u8]) -> bool
    ensures { result ≡ bytes_eq a.now b.now }
{
    a == b
}

// A part of a text, and where its first byte stands in the text.
#[derive(Clone, Copy, Debug)]
pub struct Part<'a> {
    pub place: usize,
    pub bytes: &'a [u8],
}

// The parts of a text, one after the other. The library's `split` gives no places, and they are what a person is told.
#[derive(Drop)]
pub struct Parts<'a> {
    separator: u8,
    // where the next part stands
    place: usize,
    // the next part and what follows it; nothing once the last part is given
    rest: Option<&'a [u8]>,
    ghost in_range: { ForSome rest (λ r. place + length r.now + 1 < 2 ^ 64) },
}

impl<'a> Parts<'a> {
    ghost use Rattle.text.specs.Parts.{parts, placed};
    ghost use Rattle.text.specs.PartsLeft.{parts_left};

    // Places count from the text's first byte.
    pub fn new(separator: u8, text: &'a [u8]) -> Parts<'a>
        ensures { parts_left result ≡ placed 0 (parts separator text.now) }
    {
        Parts {
            separator,
            place: 0,
            rest: Some(text),
        }
    }
}

impl<'a> Iterator for Parts<'a> {
    type Item = Part<'a>;

    ghost use Rattle.text.specs.PartsLeft.{place_and_bytes, parts_left};
    ghost use Rattle.std.specs.Iterator.{YieldsFirstBy, item_count};

    ghost next_gives = { YieldsFirstBy place_and_bytes parts_left };

    ghost remaining = { item_count parts_left };

    fn next(&mut self) -> Option<Part<'a>> {
        let rest = self.rest?;
        let place = self.place;
        match split_once(self.separator, rest) {
            Some((bytes, behind)) => {
                self.place = place + bytes.len() + 1;
                self.rest = Some(behind);
                Some(Part { place, bytes })
            }
            None => {
                self.rest = None;
                Some(Part { place, bytes: rest })
            }
        }
    }
}
