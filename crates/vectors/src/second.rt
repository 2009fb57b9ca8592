// A second reader of CUBE lines, written from documents 01 and 02 with plain loops. It has no table and shares no code with the
// library, so that an error of one is not repeated by the other.
mod link;
mod number;

ghost use Rattle.std.specs.Prelude.{◌+◌, ◌<◌, ◌≤◌};

use link::read_link;
use number::{BadForm, read_number};

// Why a line is refused (document 01, "Numbers answered").
#[derive(Clone, Copy, PartialEq, Eq)]
pub enum Reason {
    Length = 1,
    Barred = 2,
    Type = 3,
    Required = 5,
    Form = 6,
    Range = 7,
    Check = 9,
}

#[derive(Clone, Copy, PartialEq, Eq)]
pub struct Refused {
    pub reason: Reason,
    pub column: usize,
}

impl Reason {
    fn at(self, column: usize) -> Refused {
        Refused {
            reason: self,
            column,
        }
    }
}

// A line that was read: an event's numbers, and its text bytes in the order of their columns; a delete's columns 3 to 13 and its free
// text; a link's columns 3 to 14 and its parts.
#[derive(Clone, Copy, PartialEq, Eq)]
pub enum Record<'a> {
    Event {
        numbers: [Option<i64>; 19],
        text: [u8; 13],
    },
    Delete {
        names: &'a [u8; 11],
        text: &'a [u8],
    },
    Link {
        names: &'a [u8; 12],
        kind: &'a [u8],
        address: &'a [u8],
        text: &'a [u8],
    },
}

// The check character of all bytes: the sum is kept in 16 bits and turned by two shifts.
pub fn check_character(s: &[u8]) -> u8 {
    let mut sum: u16 = 0;
    for b in s {
        let turned = (sum >> 1) | (sum << 15);
        sum = turned.wrapping_add(u16::from(*b));
    }
    36 + ((sum % 91) as u8)
}

// Brackets are barred from column 3 to a last one.
fn is_barred(b: u8, column: usize, last: usize) -> bool {
    let bracket = b == b'[' || b == b']';
    b < 32 || 126 < b || (bracket && 3 <= column && column <= last)
}

// Refuses the lowest column of a barred byte.
fn refuse_barred(line: &[u8], last: usize) -> Result<(), Refused> {
    for (i, b) in line.iter().enumerate() {
        if is_barred(*b, i + 1, last) {
            return Err(Reason::Barred.at(i + 1));
        }
    }
    Ok(())
}

// The number in columns `first` to `last`, from `low` to `high`.
fn field(
    line: &[u8; 80],
    first: usize,
    last: usize,
    low: i64,
    high: i64,
) -> Result<Option<i64>, Refused>
    requires { (1 ≤ first) × (first ≤ last) × (last < first + 8) × (last ≤ 80) }
{
    match read_number(&line[first - 1..last]) {
        Err(BadForm) => Err(Reason::Form.at(first)),
        Ok(Some(n)) if n < low || high < n => Err(Reason::Range.at(first)),
        Ok(number) => Ok(number),
    }
}

// The same of a number that must be there.
fn needed(
    line: &[u8; 80],
    first: usize,
    last: usize,
    low: i64,
    high: i64,
) -> Result<Option<i64>, Refused>
    requires { (1 ≤ first) × (first ≤ last) × (last < first + 8) × (last ≤ 80) }
{
    let number = field(line, first, last, low, high)?;
    if number.is_none() {
        return Err(Reason::Required.at(first));
    }
    Ok(number)
}

// A digit's value; a blank and a minus count nothing.
fn digit(b: u8) -> u8
    ensures { result < 10 }
{
    if b'0' <= b && b <= b'9' { b - b'0' } else { 0 }
}

// Whether the year in columns 14 to 17 has a 29 February, by its digits: the last two, or the first two where those are 00.
fn is_long(line: &[u8; 80]) -> bool {
    let years = digit(line[15]) * 10 + digit(line[16]);
    if years == 0 {
        return (digit(line[13]) * 10 + digit(line[14])) % 4 == 0;
    }
    years % 4 == 0
}

// How many days the month in columns 18 and 19 has.
fn month_end(line: &[u8; 80]) -> i64 {
    let month = digit(line[17]) * 10 + digit(line[18]);
    if month == 2 {
        return if is_long(line) { 29 } else { 28 };
    }
    // up to July the odd months are the longer ones, from August on the even ones
    if (month < 8) == (month % 2 == 0) {
        30
    } else {
        31
    }
}

// Year, month, day, hour, minute, second.
fn time(line: &[u8; 80], numbers: &mut [Option<i64>; 19]) -> Result<(), Refused> {
    numbers[0] = needed(line, 14, 17, -999, 6070)?;
    numbers[1] = needed(line, 18, 19, 1, 12)?;
    numbers[2] = needed(line, 20, 21, 1, month_end(line))?;
    numbers[3] = needed(line, 22, 23, 0, 23)?;
    numbers[4] = needed(line, 24, 25, 0, 59)?;
    numbers[5] = needed(line, 26, 28, 0, 599)?;
    Ok(())
}

// Latitude, longitude, depth, magnitude.
fn place(line: &[u8; 80], numbers: &mut [Option<i64>; 19]) -> Result<(), Refused> {
    numbers[6] = needed(line, 29, 35, -900000, 900000)?;
    numbers[7] = needed(line, 36, 43, -1800000, 1800000)?;
    numbers[8] = field(line, 44, 47, -999, 9999)?;
    numbers[9] = field(line, 48, 49, -9, 99)?;
    Ok(())
}

// Stations, phases, nearest station, rms. These and what follows are not negative, and may be as large as their columns
// hold.
fn readings_used(line: &[u8; 80], numbers: &mut [Option<i64>; 19]) -> Result<(), Refused> {
    numbers[10] = field(line, 50, 52, 0, 999)?;
    numbers[11] = field(line, 53, 55, 0, 999)?;
    numbers[12] = field(line, 56, 59, 0, 9999)?;
    numbers[13] = field(line, 60, 63, 0, 9999)?;
    Ok(())
}

// Horizontal and vertical error, gap, magnitude stations, magnitude error.
fn errors(line: &[u8; 80], numbers: &mut [Option<i64>; 19]) -> Result<(), Refused> {
    numbers[14] = field(line, 64, 67, 0, 9999)?;
    numbers[15] = field(line, 68, 71, 0, 9999)?;
    numbers[16] = field(line, 72, 73, 0, 99)?;
    numbers[17] = field(line, 75, 76, 0, 99)?;
    numbers[18] = field(line, 77, 78, 0, 99)?;
    Ok(())
}

// The text columns of an event: 3 to 13, 74 and 79.
fn event_text(line: &[u8; 80]) -> [u8; 13] {
    let mut text = [0; 13];
    text[..11].copy_from_slice(&line[2..13]);
    text[11] = line[73];
    text[12] = line[78];
    text
}

fn read_event(line: &[u8]) -> Result<Record<'_>, Refused> {
    let Ok(line) = <&[u8; 80]>::try_from(line) else {
        return Err(Reason::Length.at(0));
    };
    refuse_barred(&line[..79], 13)?;
    if line[79] != check_character(&line[..79]) {
        return Err(Reason::Check.at(80));
    }
    let mut numbers = [None; 19];
    time(line, &mut numbers)?;
    place(line, &mut numbers)?;
    readings_used(line, &mut numbers)?;
    errors(line, &mut numbers)?;
    Ok(Record::Event {
        numbers,
        text: event_text(line),
    })
}

fn read_delete(line: &[u8]) -> Result<Record<'_>, Refused> {
    if line.len() < 13 || 80 < line.len() {
        return Err(Reason::Length.at(0));
    }
    refuse_barred(line, 13)?;
    match line[2..].split_first_chunk() {
        Some((names, text)) => Ok(Record::Delete { names, text }),
        None => Err(Reason::Length.at(0)),
    }
}

// Reads a line of any kind.
pub fn read_line(line: &[u8]) -> Result<Record<'_>, Refused> {
    if line.len() < 2 {
        return Err(Reason::Length.at(0));
    }
    match (line[0], line[1]) {
        (b'E', b' ') => read_event(line),
        (b'D', b'E') => read_delete(line),
        (b'L', b'I') => read_link(line),
        _ => Err(Reason::Type.at(1)),
    }
}
