// Reads and writes lines of a made-up format, and prints the outcomes: what a new table takes.
#![tactic(auto)]

ghost use Rattle.std.specs.Prelude.{◌≡◌, [], length, replicate, pos};
ghost use Rattle.columns.specs.Reading.{read_columns, read_part};
ghost use Rattle.columns.specs.Writing.{write_line};
ghost use Rattle.columns.specs.Table.{slots_of, ReadPart, Wrote};
ghost use Rattle.sample.specs.Format.{sample};

use columns::Refusal;
use columns::column::{
    BLANK, CLOCK, DECIMAL, GROUP, INTEGER, LETTER, Layout, NO_BRACKETS, NOT_BLANK_FIRST,
    NOT_NEGATIVE, PLACES, REQUIRED, TEXT, WIDTH,
};
use columns::reader::read_columns;
use columns::writer::write_columns;
use std::io;

// The table of specs/Format.antt.
const ROWS: [u32; 10] = [
    TEXT + 5 * WIDTH + NOT_BLANK_FIRST, // 1-5 station
    BLANK + WIDTH, // 6
    INTEGER + 4 * WIDTH + REQUIRED + YEAR, // 7-10 year
    BLANK + WIDTH, // 11
    DECIMAL + 5 * WIDTH + PLACES + AZIMUTH, // 12-16 azimuth
    LETTER + 3, // 17 T _ or blank
    LETTER + 3 * PLACES + 3, // 18 < > or blank
    TEXT + 3 * WIDTH + NO_BRACKETS, // 19-21 note
    GROUP + CLOCK, // 22-33 time
    INTEGER + 3 * WIDTH + NOT_NEGATIVE, // 34-36 count
];

// Where a range stands in the table of ranges; 0 to 2 are no spans.
const YEAR: u32 = 3;

const AZIMUTH: u32 = 5;

const RANGES: [i64; 7] = [
    0, // as held
    0, // not negative
    0, // a day
    -999, // year
    6070, 0, // azimuth x 10
    3600,
];

const LETTERS: [u8; 6] = *b"T_ <> ";

const TABLE: Layout<'static> = Layout {
    rows: &ROWS,
    ranges: &RANGES,
    letters: &LETTERS,
};

const BYTES: usize = 36;

// A record: six numbers, each with its flag, and ten bytes of text.
#[derive(Drop)]
struct Sample {
    flags: [u8; 6],
    values: [i64; 6],
    text: [u8; 10],
}

impl Sample {
    // A line read over the record. Where a column is refused, what the columns before it hold stands there.
    fn read(&mut self, line: &[u8]) -> Result<(), Refusal>
        requires { length line.now ≡ 36 }
        ensures { ReadPart (read_columns sample [] 0 line.now) (read_part sample [] 0 line.now) result self.old.flags self.new.flags self.old.values self.new.values self.old.text self.new.text }
    {
        read_columns(
            line,
            0,
            &TABLE,
            &mut self.flags,
            &mut self.values,
            &mut self.text,
        )
    }

    // The record's line over the first bytes of `out`. Nothing is changed where it is refused.
    fn write(&self, out: &mut [u8]) -> Result<(), Refusal>
        ensures { Wrote (write_line sample (slots_of self.now.flags self.now.values) self.now.text (length out.old)) result out.old out.new }
    {
        write_columns(&self.flags, &self.values, &self.text, &TABLE, BYTES, out)
    }
}

// The record with all of its numbers.
fn full(values: [i64; 6], text: [u8; 10]) -> Sample {
    Sample {
        flags: [1; 6],
        values,
        text,
    }
}

fn say_outcome(rt: &impl Print, outcome: Result<(), Refusal>) -> io::Result<()> {
    match outcome {
        Ok(()) => println!(rt; "done"),
        Err(refusal) => println!(rt; "refused {} {}", u8::from(refusal.reason), refusal.column),
    }
}

// The numbers, and `-` for one that is missing.
fn say_numbers(rt: &impl Print, record: &Sample) -> io::Result<()> {
    for (flag, v) in record.flags.iter().zip(&record.values) {
        if *flag == 0 {
            print!(rt; " -")?;
        } else {
            print!(rt; " {v}")?;
        }
    }
    Ok(())
}

// Reads a line; where it is good, writes its record again.
fn there_and_back(rt: &impl Print, line: &[u8; 36]) -> io::Result<()> {
    let mut record = Sample {
        flags: [0; 6],
        values: [0; 6],
        text: [0; 10],
    };
    let outcome = record.read(line);
    say_outcome(rt, outcome)?;
    if outcome.is_err() {
        return Ok(());
    }
    print!(rt; "  numbers")?;
    say_numbers(rt, &record)?;
    print!(rt; " text [")?;
    rt.write_all(&record.text)?;
    println!(rt; "]")?;
    print!(rt; "  written ")?;
    write_only(rt, &record)
}

// Writes a record into a place of 40 bytes and shows what the place then holds.
fn write_only(rt: &impl Print, record: &Sample) -> io::Result<()> {
    let mut out = [b'.'; 40];
    say_outcome(rt, record.write(&mut out))?;
    print!(rt; "  [")?;
    rt.write_all(&out)?;
    println!(rt; "]")
}

// Lines that are read, and then one refused for each of the reasons that a line of full length has.
const LINES: [&[u8; 36]; 11] = [
    b"ABCDE -042   2.5T<xyz07:05:09.050 12",
    b"Q     1999      _                   ",
    b"Q     1999  -0.0_ [ ]-0:-0:-0.000-00",
    b"ABCDE/-042   2.5T<xyz07:05:09.050 12",
    b" BCDE -042   2.5T<xyz07:05:09.050 12",
    b"ABCDE        2.5T<xyz07:05:09.050 12",
    b"ABCDE -042   2,5T<xyz07:05:09.050 12",
    b"ABCDE -042 400.0T<xyz07:05:09.050 12",
    b"ABCDE -042   2.5X<xyz07:05:09.050 12",
    b"ABCDE -042   2.5T<xyz24:xx:09.050 12",
    b"ABCDE -042   2.5T<xyz24:05:09.050 12",
];

// Records that are written or refused, each with all of its numbers.
const RECORDS: [([i64; 6], &[u8; 10]); 6] = [
    ([10000, 25, 7, 5, 9050, 12], b"ABCDET<xyz"),
    ([7000, 25, 7, 5, 9050, 12], b"ABCDET<xyz"),
    ([-42, -5, 7, 5, 9050, 12], b"ABCDET<xyz"),
    ([-42, 25, 7, 5, 9050, 12], b"AB]DET<xyz"),
    ([-42, 25, 7, 5, 9050, 12], b"ABCDET<[y]"),
    ([-42, 25, 7, 5, 60000, 12], b"ABCDET<xyz"),
];

fn write_some(rt: &impl Print) -> io::Result<()> {
    for (values, text) in RECORDS {
        write_only(rt, &full(values, *text))?;
    }
    // a minute is missing among the three of a time, and the year, which must be there
    let mut record = full([-42, 25, 7, 0, 9050, 12], *b"ABCDET<xyz");
    record.flags[3] = 0;
    write_only(rt, &record)?;
    let mut record = full([0, 25, 7, 5, 9050, 12], *b"ABCDET<xyz");
    record.flags[0] = 0;
    write_only(rt, &record)?;
    let mut short = [b'.'; 35];
    let record = full([-42, 25, 7, 5, 9050, 12], *b"ABCDET<xyz");
    say_outcome(rt, record.write(&mut short))
}

fn main(rt: HostRuntime) -> io::Result<()> {
    for line in LINES {
        there_and_back(&rt, line)?;
    }
    write_some(&rt)
}
