// CUBE records as bytes: lines read into them and written from them.
ghost use Rattle.std.specs.Prelude.{◌≡◌, ◌++◌, ◌+◌, ◌≤◌, length, get_or};
ghost use Rattle.columns.specs.Bytes.{same_bytes};
ghost use Rattle.columns.specs.Table.{over};
ghost use Rattle.formats.specs.Cube.{event_kind, link_kind, delete_of, link_of};
ghost use Rattle.formats.specs.Record.{packed, Replied};
ghost use Rattle.formats.specs.CubeRecord.{filled, record_of, read_into, write_from};

use super::cube::{DELETE, EVENT, LINK, Parts, read_line, write_delete, write_event};
use super::link::write_link;
use super::record::{get_numbers, pack};
use columns::bytes::{copy, copy_at, same};
use columns::cursor::Cursor;
use columns::{Reason, Refusal};

// The bytes of a record of any kind.
pub const RECORD: usize = 268;

// Whether bytes are those of an event's record.
fn is_packed(flags: &[u8; 19], values: &[i64; 19], text: &[u8; 13], from: &[u8]) -> bool
    ensures { result ≡ same_bytes (filled (packed event_kind flags.now values.now text.now)) from.now }
{
    let mut bytes = [0u8; 268];
    pack(&mut bytes, EVENT, flags, values, text);
    same(&bytes, from)
}

// Whether bytes are those of a delete's or a link's record: its kind and its lengths, then its names and texts.
fn is_laid(head: &[u8], chars: &[u8], from: &[u8]) -> bool
    requires { length head.now + length chars.now ≤ 268 }
    ensures { result ≡ same_bytes (filled (head.now ++ chars.now)) from.now }
{
    let mut bytes = [0u8; 268];
    let at = head.len();
    copy_at(&mut bytes, 0, head);
    copy_at(&mut bytes, at, chars);
    same(&bytes, from)
}

// A delete's record, from a line of 13 to 80 bytes.
fn delete_bytes(line: &[u8]) -> [u8; 268]
    requires { (13 ≤ length line.now) × (length line.now ≤ 80) }
    ensures { result ≡ record_of (delete_of line.now) }
{
    let size = line.len() - 13;
    let mut bytes = [0u8; 268];
    bytes[0] = DELETE;
    bytes[1] = size as u8;
    let cursor = Cursor { at: 2 };
    let names = cursor.stretch(line, 11, &mut bytes, 2);
    names.stretch(line, size, &mut bytes, 13);
    bytes
}

// A link's record, from a line with a type and an address of these lengths.
fn link_bytes(line: &[u8], kind: usize, address: usize) -> [u8; 268]
    requires { (17 + kind + address ≤ length line.now) × (length line.now ≤ 255) }
    ensures { result ≡ record_of (link_of line.now kind address) }
{
    let end = 16 + kind;
    let rest = end + address;
    let size = line.len() - (rest + 1);
    let head = [LINK, kind as u8, address as u8, size as u8];
    let mut bytes = [0u8; 268];
    copy_at(&mut bytes, 0, &head);
    let cursor = Cursor { at: 2 };
    cursor.stretch(line, 12, &mut bytes, 4);
    let cursor = Cursor { at: 15 };
    cursor.stretch(line, kind, &mut bytes, 16);
    let cursor = Cursor { at: end };
    cursor.stretch(line, address, &mut bytes, end);
    let cursor = Cursor { at: rest + 1 };
    cursor.stretch(line, size, &mut bytes, rest);
    bytes
}

// An event's record, from its numbers and its text with zeros after it, over the first bytes of `out`.
fn put_event(out: &mut [u8], flags: &[u8; 19], values: &[i64; 19], text: &[u8; 96])
    requires { 268 ≤ length out.old }
    ensures { out.new ≡ over (packed event_kind flags.now values.now text.now) out.old }
{
    pack(out, EVENT, flags, values, text);
}

// A CUBE line read into a record, over the first bytes of `out`. Nothing is changed where it is refused.
pub fn read_into(line: &[u8], out: &mut [u8]) -> Result<usize, Refusal>
    ensures { Replied (read_into line.now (length out.old)) result out.old out.new }
{
    if out.len() < RECORD {
        return Err(Reason::Short.at(0));
    }
    let mut flags = [0u8; 19];
    let mut values = [0i64; 19];
    let mut text = [0u8; 96];
    match read_line(line, &mut flags, &mut values, &mut text)? {
        Parts::Event => put_event(out, &flags, &values, &text),
        Parts::Link { kind, address, .. } => copy(out, &link_bytes(line, kind, address)),
        Parts::Delete { .. } => copy(out, &delete_bytes(line)),
    }
    Ok(RECORD)
}

// The line of an event's record, of exactly 268 bytes.
fn write_event_from(from: &[u8], out: &mut [u8]) -> Result<usize, Refusal>
    requires { (length from.now ≡ 268) × (get_or from.now 0 0 ≡ event_kind) }
    ensures { Replied (write_from from.now (length out.old)) result out.old out.new }
{
    let mut flags = [0u8; 19];
    let mut values = [0i64; 19];
    let mut text = [0u8; 13];
    get_numbers(&from[1..268], &from[20..268], &mut flags, &mut values);
    copy(&mut text, &from[172..185]);
    if is_packed(&flags, &values, &text, from) {
        write_event(&flags, &values, &text, out)?;
        return Ok(80);
    }
    Err(Reason::Form.at(0))
}

// The line of a delete's record, of exactly 268 bytes, with a text of `len` bytes.
fn write_delete_from(from: &[u8], len: u8, out: &mut [u8]) -> Result<usize, Refusal>
    requires { (length from.now ≡ 268) × ((get_or from.now 0 0 ≡ event_kind → ⊥) × ((get_or from.now 0 0 ≡ link_kind → ⊥) × (get_or from.now 1 0 ≡ len))) }
    ensures { Replied (write_from from.now (length out.old)) result out.old out.new }
{
    let end = 13 + (len as usize);
    let head = [DELETE, len];
    if is_laid(&head, &from[2..end], from) {
        write_delete(&from[2..13], &from[13..end], out)?;
        return Ok(end);
    }
    Err(Reason::Form.at(0))
}

// The line of a link's record, of exactly 268 bytes, with a type, an address and a text of these lengths.
fn write_link_from(
    from: &[u8],
    kind: u8,
    address: u8,
    text: u8,
    out: &mut [u8],
) -> Result<usize, Refusal>
    requires { (length from.now ≡ 268) × ((get_or from.now 0 0 ≡ link_kind) × ((get_or from.now 1 0 ≡ kind) × ((get_or from.now 2 0 ≡ address) × (get_or from.now 3 0 ≡ text)))) }
    ensures { Replied (write_from from.now (length out.old)) result out.old out.new }
{
    let start = 16 + (kind as usize);
    let rest = start + (address as usize);
    let end = rest + (text as usize);
    if RECORD < end {
        return Err(Reason::Form.at(0));
    }
    let head = [LINK, kind, address, text];
    if is_laid(&head, &from[4..end], from) {
        let (kind, address, text) = (&from[16..start], &from[start..rest], &from[rest..end]);
        write_link(&from[4..16], kind, address, text, out)?;
        return Ok(end + 1);
    }
    Err(Reason::Form.at(0))
}

// A CUBE line written from a record, over the first bytes of `out`. Nothing is changed where it is refused.
pub fn write_from(from: &[u8], out: &mut [u8]) -> Result<usize, Refusal>
    ensures { Replied (write_from from.now (length out.old)) result out.old out.new }
{
    if from.len() < RECORD {
        return Err(Reason::Form.at(0));
    }
    if from[0] == EVENT {
        return write_event_from(&from[0..268], out);
    }
    if from[0] == LINK {
        return write_link_from(&from[0..268], from[1], from[2], from[3], out);
    }
    write_delete_from(&from[0..268], from[1], out)
}
