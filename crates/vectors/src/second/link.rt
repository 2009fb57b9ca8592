// The second reader's LI lines, written from document 02, "Take the links".
use super::{Reason, Record, Refused, refuse_barred};

// What stands before the first blank, and after it.
fn cut(s: &[u8]) -> Option<(&[u8], &[u8])> {
    let at = s.iter().position(|b| *b == b' ')?;
    Some((&s[..at], &s[at + 1..]))
}

// The parts of a line from its column 3 on: a blank stands before each of type, address and text.
fn parts(from: &[u8]) -> Option<Record<'_>> {
    let (names, rest) = from.split_first_chunk::<12>()?;
    if rest.first() != Some(&b' ') {
        return None;
    }
    let (kind, rest) = cut(&rest[1..])?;
    let (address, text) = cut(rest)?;
    if kind.is_empty() || 16 < kind.len() || address.is_empty() {
        return None;
    }
    if text.is_empty() || text[0] == b' ' {
        return None;
    }
    Some(Record::Link {
        names,
        kind,
        address,
        text,
    })
}

pub fn read_link(line: &[u8]) -> Result<Record<'_>, Refused> {
    if line.len() < 20 || 255 < line.len() {
        return Err(Reason::Length.at(0));
    }
    refuse_barred(line, 14)?;
    parts(&line[2..]).ok_or(Reason::Form.at(15))
}
