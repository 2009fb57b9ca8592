// What the program prints of a record: its values by name.
use super::second::Record;
use std::io;

// The numbers of an event, in the order of their columns.
const NUMBERS: [&str; 19] = [
    "year",
    "month",
    "day",
    "hour",
    "minute",
    "second",
    "latitude",
    "longitude",
    "depth",
    "magnitude",
    "stations",
    "phases",
    "nearest station",
    "rms",
    "horizontal error",
    "vertical error",
    "gap",
    "magnitude stations",
    "magnitude error",
];

// The bytes as they are, by name: a line need not be text.
fn say_text(rt: &impl Print, name: &str, bytes: &[u8]) -> io::Result<()> {
    print!(rt; "{name} ")?;
    rt.write_all(bytes)?;
    println!(rt)
}

// Numbers by name, and `-` for one that is missing.
fn say_numbers(rt: &impl Print, names: &[&str], numbers: &[Option<i64>]) -> io::Result<()> {
    for (name, number) in names.iter().zip(numbers) {
        match number {
            Some(n) => println!(rt; "{name} {n}")?,
            None => println!(rt; "{name} -")?,
        }
    }
    Ok(())
}

// Identifier, source and version, which begin a record.
fn say_names(rt: &impl Print, names: &[u8]) -> io::Result<()> {
    let Some((identifier, rest)) = names.split_at_checked(8) else {
        return Ok(());
    };
    let Some((source, version)) = rest.split_at_checked(2) else {
        return Ok(());
    };
    say_text(rt, "identifier", identifier)?;
    say_text(rt, "source", source)?;
    say_text(rt, "version", version)
}

// A record's values in the order of their columns.
pub fn say_record(rt: &impl Print, record: &Record<'_>) -> io::Result<()> {
    match record {
        Record::Event { numbers, text } => {
            say_names(rt, &text[..11])?;
            say_numbers(rt, &NUMBERS[..17], &numbers[..17])?;
            say_text(rt, "magnitude letter", &text[11..12])?;
            say_numbers(rt, &NUMBERS[17..], &numbers[17..])?;
            say_text(rt, "method", &text[12..])
        }
        Record::Delete { names, text } => {
            say_names(rt, *names)?;
            say_text(rt, "text", text)
        }
        Record::Link {
            names,
            kind,
            address,
            text,
        } => {
            say_names(rt, *names)?;
            say_text(rt, "type", kind)?;
            say_text(rt, "address", address)?;
            say_text(rt, "text", text)
        }
    }
}
