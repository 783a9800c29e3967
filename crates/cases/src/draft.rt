// A sheet that is written out field by field. Nothing in it need be right.
use anyhow::anyhow;
use std::alloc::{AllocError, Global};
use std::error::Error;
use std::str::FromStr;

// TABLE TARGET LOWER UPPER NAME_LENGTH NAME_OFFSET; the last minute of use is always 100,000
#[derive(Clone, Copy)]
struct Line {
    table: u16,
    target: u32,
    lower: u32,
    upper: u32,
    name_length: u8,
    name_offset: u16,
}

#[derive(Drop)]
pub struct Draft {
    // how many bytes there are
    length: u16,
    // the five fields of the header
    stated: u16,
    rows: u16,
    rows_at: u16,
    names_length: u16,
    names_at: u16,
    names: String,
    lines: Vec<Line>,
}

// The number that a word says.
pub(crate) fn parsed<T: FromStr>(word: Option<&str>) -> anyhow::Result<T>
where
    T::Err: Error,
{
    let Some(word) = word else {
        return Err(anyhow!("a number is missing"));
    };
    Ok(word.parse::<T>()?)
}

impl FromStr for Line {
    type Err = anyhow::Error;

    fn from_str(text: &str) -> anyhow::Result<Line> {
        let mut words = text.split_whitespace();
        Ok(Line {
            table: parsed(words.next())?,
            target: parsed(words.next())?,
            lower: parsed(words.next())?,
            upper: parsed(words.next())?,
            name_length: parsed(words.next())?,
            name_offset: parsed(words.next())?,
        })
    }
}

impl Line {
    // The row's 21 bytes.
    fn bytes(&self) -> [u8; 21] {
        let [n1, n0] = self.table.to_be_bytes();
        let [t3, t2, t1, t0] = self.target.to_be_bytes();
        let [l3, l2, l1, l0] = self.lower.to_be_bytes();
        let [u3, u2, u1, u0] = self.upper.to_be_bytes();
        let [m3, m2, m1, m0] = 100_000u32.to_be_bytes();
        let [o1, o0] = self.name_offset.to_be_bytes();
        [
            n1,
            n0,
            t3,
            t2,
            t1,
            t0,
            l3,
            l2,
            l1,
            l0,
            u3,
            u2,
            u1,
            u0,
            m3,
            m2,
            m1,
            m0,
            self.name_length,
            o1,
            o0,
        ]
    }
}

impl Draft {
    pub(crate) fn parse(heap: Global, text: &str) -> anyhow::Result<Draft> {
        let mut parts = text.split('|');
        let mut words = parts.next().unwrap_or("").split_whitespace();
        Ok(Draft {
            lines: parts.map(|part| part.parse::<Line>()).try_collect(heap)?,
            length: parsed(words.next())?,
            stated: parsed(words.next())?,
            rows: parsed(words.next())?,
            rows_at: parsed(words.next())?,
            names_length: parsed(words.next())?,
            names_at: parsed(words.next())?,
            names: String::from_str(heap, words.next().unwrap_or(""))?,
        })
    }

    fn header(&self) -> [u16; 5] {
        [
            self.stated,
            self.rows,
            self.rows_at,
            self.names_length,
            self.names_at,
        ]
    }

    // The header is written last, over whatever lies there. Rows beyond the sheet take no room.
    pub(crate) fn bytes(&self, heap: Global) -> Result<Vec<u8>, AllocError> {
        let mut sheet = vec![in heap; 0u8; usize::from(self.length)]?;
        let places = usize::from(self.rows_at)..sheet.len();
        for (at, line) in places.step_by(21).zip(self.lines.iter()) {
            put(&mut sheet, at, &line.bytes());
        }
        put(
            &mut sheet,
            usize::from(self.names_at),
            self.names.as_bytes(),
        );
        for (at, field) in (0..10).step_by(2).zip(self.header()) {
            put(&mut sheet, at, &field.to_be_bytes());
        }
        Ok(sheet)
    }
}

// Writes the bytes from that place on, as far as there is room.
fn put(sheet: &mut [u8], at: usize, bytes: &[u8]) {
    if let Some(room) = sheet.get_mut(at..) {
        for (place, byte) in room.iter_mut().zip(bytes) {
            *place = *byte;
        }
    }
}
