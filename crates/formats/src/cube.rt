// CUBE lines: E and DE messages, read and written; a line of any kind read.
ghost use Rattle.std.specs.Prelude.{◌≡◌, ◌≤◌, length, replicate};
ghost use Rattle.columns.specs.Answer.{ok};
ghost use Rattle.columns.specs.Table.{slots_of, over, outcome_of, Wrote};
ghost use Rattle.formats.specs.Cube.{read_event, event_part, read_text, read_delete, is_type, read_line, line_part, line_read, LineRead, event, delete, delete_line, put_text, write_message};

use super::check::check_character;
use super::link::read_link;
use super::ranges::{EVENT_RANGES, HOUR, LATITUDE, LONGITUDE, MINUTE, MONTH, SECOND, YEAR};
use columns::bytes::{copy, copy_at, first_barred};
use columns::column::{
    ANY_TEXT, AS_HELD, DAY, INTEGER, Layout, NO_BRACKETS, NOT_NEGATIVE, REQUIRED, TEXT, WIDTH,
};
use columns::reader::read_columns;
use columns::writer::put_columns;
use columns::{Reason, Refusal};

// The table of specs/Cube.antt, from column 3 on.
pub const EVENT_ROWS: [u32; 24] = [
    TEXT + 8 * WIDTH + NO_BRACKETS, // 3-10 identifier
    TEXT + 2 * WIDTH + NO_BRACKETS, // 11-12 source
    TEXT + WIDTH + NO_BRACKETS, // 13 version
    INTEGER + 4 * WIDTH + REQUIRED + YEAR, // 14-17 year
    INTEGER + 2 * WIDTH + REQUIRED + MONTH, // 18-19 month
    INTEGER + 2 * WIDTH + REQUIRED + DAY, // 20-21 day
    INTEGER + 2 * WIDTH + REQUIRED + HOUR, // 22-23 hour
    INTEGER + 2 * WIDTH + REQUIRED + MINUTE, // 24-25 minute
    INTEGER + 3 * WIDTH + REQUIRED + SECOND, // 26-28 second
    INTEGER + 7 * WIDTH + REQUIRED + LATITUDE, // 29-35 latitude
    INTEGER + 8 * WIDTH + REQUIRED + LONGITUDE, // 36-43 longitude
    INTEGER + 4 * WIDTH + AS_HELD, // 44-47 depth
    INTEGER + 2 * WIDTH + AS_HELD, // 48-49 magnitude
    INTEGER + 3 * WIDTH + NOT_NEGATIVE, // 50-52 stations
    INTEGER + 3 * WIDTH + NOT_NEGATIVE, // 53-55 phases
    INTEGER + 4 * WIDTH + NOT_NEGATIVE, // 56-59 nearest station
    INTEGER + 4 * WIDTH + NOT_NEGATIVE, // 60-63 rms
    INTEGER + 4 * WIDTH + NOT_NEGATIVE, // 64-67 horizontal error
    INTEGER + 4 * WIDTH + NOT_NEGATIVE, // 68-71 vertical error
    INTEGER + 2 * WIDTH + NOT_NEGATIVE, // 72-73 gap
    TEXT + WIDTH + ANY_TEXT, // 74 magnitude letter
    INTEGER + 2 * WIDTH + NOT_NEGATIVE, // 75-76 magnitude stations
    INTEGER + 2 * WIDTH + NOT_NEGATIVE, // 77-78 magnitude error
    TEXT + WIDTH + ANY_TEXT, // 79 method
];

// An E line has no letters of a set.
pub const EVENT_LETTERS: [u8; 1] = [0];

pub const EVENT_COLUMNS: usize = 24;

const EVENT_TABLE: Layout<'static> = Layout {
    rows: &EVENT_ROWS,
    ranges: &EVENT_RANGES,
    letters: &EVENT_LETTERS,
};

// The kinds of record, as docs/RECORDS.md numbers them.
pub const EVENT: u8 = 1;

pub const DELETE: u8 = 2;

pub const LINK: u8 = 4;

// The parts of a line that was read: an event's, or the lengths of a delete's free text, or of a link's type, address and text.
#[derive(Clone, Copy, PartialEq, Eq, Debug)]
pub enum Parts {
    Event,
    Delete {
        text: usize,
    },
    Link {
        kind: usize,
        address: usize,
        text: usize,
    },
}

// A line whose type is `E `: its numbers with their flags, and its text (identifier 8, source 2, version 1, magnitude letter,
// method) over the first of `text`.
fn read_event(
    line: &[u8],
    flags: &mut [u8; 19],
    values: &mut [i64; 19],
    text: &mut [u8; 96],
) -> Result<Parts, Refusal>
    ensures { LineRead (read_event line.now) (event_part line.now) result flags.old flags.new values.old values.new text.old text.new }
{
    if line.len() != 80 {
        return Err(Reason::Length.at(0));
    }
    if let Some(column) = first_barred(&line[0..79], 1, 3, 13) {
        return Err(Reason::Barred.at(column));
    }
    if line[79] != check_character(&line[0..79]) {
        return Err(Reason::Check.at(80));
    }
    read_columns(line, 2, &EVENT_TABLE, flags, values, text)?;
    Ok(Parts::Event)
}

// How a DE or an LI line begins: `low` to `high` bytes, none of them barred, brackets in columns 3 to `last` among them.
pub fn judge_text(line: &[u8], low: usize, high: usize, last: usize) -> Result<(), Refusal>
    requires { high ≤ 255 }
    ensures { result ≡ outcome_of (read_text low high last ok line.now) }
{
    let len = line.len();
    if len < low || high < len {
        return Err(Reason::Length.at(0));
    }
    if let Some(column) = first_barred(line, 1, 3, last) {
        return Err(Reason::Barred.at(column));
    }
    Ok(())
}

// A line whose type is `DE`; its record is the line after its type.
fn read_delete(line: &[u8]) -> Result<Parts, Refusal>
    ensures { result ≡ line_read (read_delete line.now) }
{
    judge_text(line, 13, 80, 13)?;
    Ok(Parts::Delete {
        text: line.len() - 13,
    })
}

// Whether a line begins with two bytes.
fn is_type(line: &[u8], a: u8, b: u8) -> bool
    requires { 2 ≤ length line.now }
    ensures { result ≡ is_type a b line.now }
{
    line[0] == a && line[1] == b
}

// A CUBE line of any kind. The numbers and the text of an event come into the lent arrays: where a column is refused, those
// before it stand there. Of other lines nothing does.
pub fn read_line(
    line: &[u8],
    flags: &mut [u8; 19],
    values: &mut [i64; 19],
    text: &mut [u8; 96],
) -> Result<Parts, Refusal>
    ensures { LineRead (read_line line.now) (line_part line.now) result flags.old flags.new values.old values.new text.old text.new }
{
    if line.len() < 2 {
        return Err(Reason::Length.at(0));
    }
    if is_type(line, b'E', b' ') {
        read_event(line, flags, values, text)
    } else if is_type(line, b'D', b'E') {
        read_delete(line)
    } else if is_type(line, b'L', b'I') {
        read_link(line)
    } else {
        Err(Reason::Type.at(1))
    }
}

// An event's record, its 19 numbers and 13 text bytes, as a line of 80 bytes over the first of `out`. Nothing is changed
// where it is refused.
pub fn write_event(
    flags: &[u8; 19],
    values: &[i64; 19],
    text: &[u8; 13],
    out: &mut [u8],
) -> Result<(), Refusal>
    ensures { Wrote (write_message (event (slots_of flags.now values.now) text.now) (length out.old)) result out.old out.new }
{
    if out.len() < 80 {
        return Err(Reason::Short.at(0));
    }
    let mut line = [b' '; 80];
    line[0] = b'E';
    put_columns(flags, values, text, &EVENT_TABLE, &mut line, 2)?;
    line[79] = check_character(&line[0..79]);
    copy(out, &line);
    Ok(())
}

// A DE or an LI line, whose parts are well formed or not, over the first bytes of `out`. Nothing is changed where it is refused.
pub fn put_text(
    line: &[u8],
    low: usize,
    high: usize,
    last: usize,
    formed: bool,
    out: &mut [u8],
) -> Result<(), Refusal>
    requires { high ≤ 255 }
    ensures { Wrote (put_text low high last line.now formed (length out.old)) result out.old out.new }
{
    let len = line.len();
    if len < low || high < len {
        return Err(Reason::Length.at(0));
    }
    if out.len() < len {
        return Err(Reason::Short.at(0));
    }
    if let Some(column) = first_barred(line, 1, 3, last) {
        return Err(Reason::Barred.at(column));
    }
    if !formed {
        return Err(Reason::Form.at(15));
    }
    copy(out, line);
    Ok(())
}

// The line of a delete, in the first bytes of 80.
fn delete_line(names: &[u8], text: &[u8]) -> [u8; 80]
    requires { (length names.now ≡ 11) × (length text.now ≤ 67) }
    ensures { result ≡ over (delete_line names.now text.now) (replicate 80 0) }
{
    let mut line = [0u8; 80];
    line[0] = b'D';
    line[1] = b'E';
    copy_at(&mut line, 2, names);
    copy_at(&mut line, 13, text);
    line
}

// A delete's record, identifier, source and version and its free text, as a line over the first bytes of `out`. Nothing is
// changed where it is refused.
pub fn write_delete(names: &[u8], text: &[u8], out: &mut [u8]) -> Result<(), Refusal>
    requires { length names.now ≡ 11 }
    ensures { Wrote (write_message (delete names.now text.now) (length out.old)) result out.old out.new }
{
    let len = text.len();
    if 67 < len {
        return Err(Reason::Length.at(0));
    }
    let end = 13 + len;
    let line = delete_line(names, text);
    put_text(&line[0..end], 13, 80, 13, true, out)
}
