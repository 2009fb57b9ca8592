// CUBE lines: LI messages, links to pages about an event, read and written.
ghost use Rattle.std.specs.Prelude.{◌≡◌, ◌+◌, ◌≤◌, ◌<◌, MatchOption, IfSome, min, length, get_or, replicate};
ghost use Rattle.columns.specs.Table.{over, Wrote};
ghost use Rattle.formats.specs.Lines.{end_from};
ghost use Rattle.formats.specs.Link.{is_whole_word, begun, formed, text_of, says_delete};
ghost use Rattle.formats.specs.Cube.{link, link_line, link_parts, read_link, line_read, write_message};

use super::cube::{Parts, judge_text, put_text};
use super::lines::{BLANK, scan_end};
use columns::bytes::{copy_at, same};
use columns::{Reason, Refusal};

// Whether there is at least one byte, and no blank.
fn is_word(s: &[u8]) -> bool
    ensures { result ≡ is_whole_word s.now }
{
    s.len() != 0 && scan_end(s, 0, BLANK) == s.len()
}

// Whether there is at least one byte, and the first is no blank.
fn is_begun(s: &[u8]) -> bool
    ensures { result ≡ begun s.now }
{
    s.len() != 0 && s[0] != BLANK
}

// Whether the parts of a link are well formed.
fn is_formed(kind: &[u8], address: &[u8], text: &[u8]) -> bool
    ensures { result ≡ formed kind.now address.now text.now }
{
    kind.len() <= 16 && is_word(kind) && is_word(address) && is_begun(text)
}

// The places of the blanks after a link's type, which stands from column 16 on, and after its address; none where one is missing.
fn blanks_in(line: &[u8]) -> Option<(usize, usize)>
    ensures places { MatchOption result (length line.now ≤ end_from 32 line.now (end_from 32 line.now 15 + 1)) (λ p. (p.0 ≡ end_from 32 line.now 15) × (p.1 ≡ end_from 32 line.now (p.0 + 1))) }
    ensures within { IfSome result (λ p. (15 ≤ p.0) × (p.0 < p.1) × (p.1 < length line.now)) }
{
    let end = scan_end(line, 15, BLANK);
    if line.len() <= end {
        return None;
    }
    let stop = scan_end(line, end + 1, BLANK);
    if line.len() <= stop {
        return None;
    }
    Some((end, stop))
}

// The parts of a line of allowed length and bytes.
fn read_parts(line: &[u8]) -> Result<Parts, Refusal>
    requires { (20 ≤ length line.now) × ((length line.now ≤ 255) × (get_or line.now 14 0 ≡ 32)) }
    ensures { result ≡ line_read (link_parts line.now) }
{
    let Some((end, stop)) = blanks_in(line) else {
        return Err(Reason::Form.at(15));
    };
    let kind = &line[15..end];
    let address = &line[end + 1..stop];
    let text = &line[stop + 1..];
    if !is_formed(kind, address, text) {
        return Err(Reason::Form.at(15));
    }
    Ok(Parts::Link {
        kind: kind.len(),
        address: address.len(),
        text: text.len(),
    })
}

// A line whose type is `LI`.
pub fn read_link(line: &[u8]) -> Result<Parts, Refusal>
    ensures { result ≡ line_read (read_link line.now) }
{
    judge_text(line, 20, 255, 14)?;
    if line[14] != BLANK {
        return Err(Reason::Form.at(15));
    }
    read_parts(line)
}

// The line of a link, in the first bytes of 255.
fn link_line(names: &[u8], kind: &[u8], address: &[u8], text: &[u8]) -> [u8; 255]
    requires { (length names.now ≡ 12) × (17 + length kind.now + length address.now + length text.now ≤ 255) }
    ensures { result ≡ over (link_line names.now kind.now address.now text.now) (replicate 255 0) }
{
    let mut line = [0u8; 255];
    line[0] = b'L';
    line[1] = b'I';
    copy_at(&mut line, 2, names);
    line[14] = BLANK;
    copy_at(&mut line, 15, kind);
    let at = 15 + kind.len();
    line[at] = BLANK;
    copy_at(&mut line, at + 1, address);
    let at = at + 1 + address.len();
    line[at] = BLANK;
    copy_at(&mut line, at + 1, text);
    line
}

// The bytes of type, address and text together, at most 256.
fn parts_size(kind: &[u8], address: &[u8], text: &[u8]) -> usize
    ensures { result ≡ min 256 (length kind.now + length address.now + length text.now) }
{
    kind.len()
        .saturating_add(address.len())
        .saturating_add(text.len())
        .min(256)
}

// A link's record, identifier, source and version, type, address and text, as a line over the first bytes of `out`. Nothing
// is changed where it is refused.
pub fn write_link(
    names: &[u8],
    kind: &[u8],
    address: &[u8],
    text: &[u8],
    out: &mut [u8],
) -> Result<(), Refusal>
    requires { length names.now ≡ 12 }
    ensures { Wrote (write_message (link names.now kind.now address.now text.now) (length out.old)) result out.old out.new }
{
    let size = parts_size(kind, address, text);
    if 238 < size {
        return Err(Reason::Length.at(0));
    }
    let end = 17 + size;
    let line = link_line(names, kind, address, text);
    let formed = is_formed(kind, address, text);
    put_text(&line[0..end], 20, 255, 14, formed, out)
}

// Whether a link's text takes it back.
fn says_delete(text: &[u8]) -> bool
    ensures { result ≡ says_delete text.now }
{
    same(text, b"delete") || same(text, b"delete:")
}

// Whether the text of a line's link takes it back.
pub fn is_delete(line: &[u8]) -> bool
    ensures { result ≡ says_delete (text_of line.now) }
{
    match blanks_in(line) {
        None => false,
        Some((_, stop)) => says_delete(&line[stop + 1..]),
    }
}
