// The library's reader and the second one held against each other on one line.
use super::second::{Record, read_line};
use formats::cube_record::{RECORD, read_into, write_from};
use formats::record::get_numbers;
use std::io;

// A run of both readers, of which the outcomes are counted: of a group of lines on how many the readers agree and differ, and how many
// both accept; of all lines how many got each answer of the library.
#[derive(Drop)]
pub struct Comparison<'a, R: Print> {
    rt: &'a R,
    agree: u64,
    differ: u64,
    accepted: u64,
    answers: [u64; 10],
}

// The numbers of an event's record.
fn numbers_in(bytes: &[u8; RECORD]) -> [Option<i64>; 19] {
    let mut flags = [0u8; 19];
    let mut values = [0i64; 19];
    get_numbers(&bytes[1..], &bytes[20..], &mut flags, &mut values);
    let mut numbers = [None; 19];
    for (number, (flag, value)) in numbers.iter_mut().zip(flags.iter().zip(&values)) {
        if *flag != 0 {
            *number = Some(*value);
        }
    }
    numbers
}

// An event's text, and the bytes after it.
fn event_in(bytes: &[u8; RECORD]) -> Option<(Record<'_>, &[u8])> {
    let (text, rest) = bytes[172..].split_first_chunk::<13>()?;
    let record = Record::Event {
        numbers: numbers_in(bytes),
        text: *text,
    };
    Some((record, rest))
}

fn delete_in(bytes: &[u8; RECORD]) -> Option<(Record<'_>, &[u8])> {
    let (names, rest) = bytes[2..].split_first_chunk::<11>()?;
    let (text, rest) = rest.split_at_checked(usize::from(bytes[1]))?;
    Some((Record::Delete { names, text }, rest))
}

fn link_in(bytes: &[u8; RECORD]) -> Option<(Record<'_>, &[u8])> {
    let (names, rest) = bytes[4..].split_first_chunk::<12>()?;
    let (kind, rest) = rest.split_at_checked(usize::from(bytes[1]))?;
    let (address, rest) = rest.split_at_checked(usize::from(bytes[2]))?;
    let (text, rest) = rest.split_at_checked(usize::from(bytes[3]))?;
    let record = Record::Link {
        names,
        kind,
        address,
        text,
    };
    Some((record, rest))
}

// What the library's record holds, in the second reader's form: none where its lengths do not fit or other bytes than zeros follow.
fn record_in(bytes: &[u8; RECORD]) -> Option<Record<'_>> {
    // the kinds of docs/RECORDS.md
    let (record, rest) = match bytes[0] {
        1 => event_in(bytes)?,
        2 => delete_in(bytes)?,
        4 => link_in(bytes)?,
        _ => return None,
    };
    if rest.iter().all(|b| *b == 0) {
        Some(record)
    } else {
        None
    }
}

// What the library reads in a line, with its record in the lent bytes; of a refusal its number and its column.
pub fn reading<'a>(
    line: &[u8],
    bytes: &'a mut [u8; RECORD],
) -> Result<Option<Record<'a>>, (u8, usize)> {
    match read_into(line, bytes) {
        Ok(_) => Ok(record_in(bytes)),
        Err(refusal) => Err((u8::from(refusal.reason), refusal.column)),
    }
}

// The line's bytes as decimal codes, since a damaged line may hold any, and both answers: 0 for none refused.
fn say_difference(
    rt: &impl Print,
    line: &[u8],
    library: Option<(u8, usize)>,
    second: Option<(u8, usize)>,
) -> io::Result<()> {
    print!(rt; "differ on ")?;
    for b in line {
        print!(rt; "{b} ")?;
    }
    let (answer, column) = library.unwrap_or((0, 0));
    let (other, other_column) = second.unwrap_or((0, 0));
    println!(rt; "  library {answer} {column} second {other} {other_column}")
}

impl<'a, R: Print> Comparison<'a, R> {
    pub fn new(rt: &'a R) -> Comparison<'a, R> {
        Comparison {
            rt,
            agree: 0,
            differ: 0,
            accepted: 0,
            answers: [0; 10],
        }
    }

    // Counts the library's answer.
    fn count(&mut self, answer: u8) {
        if let Some(lines) = self.answers.get_mut(usize::from(answer)) {
            *lines = lines.wrapping_add(1);
        }
    }

    // Reads one line twice and counts the outcome; a difference is printed.
    pub fn compare(&mut self, line: &[u8]) -> io::Result<()> {
        let mut bytes = [0u8; RECORD];
        let library = reading(line, &mut bytes);
        let second = match read_line(line) {
            Ok(record) => Ok(Some(record)),
            Err(refused) => Err((refused.reason as u8, refused.column)),
        };
        let (answer, _) = library.err().unwrap_or((0, 0));
        self.count(answer);
        if library != second {
            self.differ = self.differ.wrapping_add(1);
            return say_difference(self.rt, line, library.err(), second.err());
        }
        self.agree = self.agree.wrapping_add(1);
        if library.is_ok() {
            self.accepted = self.accepted.wrapping_add(1);
        }
        Ok(())
    }

    // Prints a group's counts; the answers are counted on.
    pub fn close(&mut self, name: &str) -> io::Result<()> {
        println!(self.rt;
            "{name}: {} agree, {} differ, {} accepted",
            self.agree, self.differ, self.accepted
        )?;
        self.agree = 0;
        self.differ = 0;
        self.accepted = 0;
        Ok(())
    }

    // How many lines got each number that a line can get: none gets 4 or 8.
    pub fn say_answers(&self) -> io::Result<()> {
        for (answer, lines) in self.answers.iter().enumerate() {
            if answer != 4 && answer != 8 {
                println!(self.rt; "answer {answer}: {lines} lines")?;
            }
        }
        Ok(())
    }
}

// Whether the library's record of a line is written as that line.
pub fn comes_back(line: &[u8]) -> bool {
    let mut record = [0u8; RECORD];
    let mut out = [0u8; 255];
    if read_into(line, &mut record).is_err() {
        return false;
    }
    match write_from(&record, &mut out) {
        Ok(length) => out.get(..length) == Some(line),
        Err(_) => false,
    }
}
