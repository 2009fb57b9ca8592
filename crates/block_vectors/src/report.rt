// What the program prints: answers, and the values of a record by name. docs/RECORDS.md has the places of its bytes.
use super::names::Names;
use columns::word::read_word;
use formats::record::signed_of;
use std::io;

// What is answered for a block: the answer, its column and line, and the counts.
pub fn say_counts(rt: &impl Print, names: &Names, numbers: &[usize; 6]) -> io::Result<()> {
    let [answer, column, line, rows, comments, used] = *numbers;
    println!(rt; "answer {answer}\ncolumn {column}\nline {line}")?;
    println!(rt; "{} {rows}", names.rows)?;
    println!(rt; "comments {comments}\nbytes used {used}")
}

// The texts of a record, in quotes.
fn say_texts(rt: &impl Print, names: &Names, texts: &[u8]) -> io::Result<()> {
    let mut rest = texts;
    for (name, width) in names.texts {
        let Some((text, after)) = rest.split_at_checked(*width) else {
            return Ok(());
        };
        print!(rt; "{name} \"")?;
        rt.write_all(text)?;
        println!(rt; "\"")?;
        rest = after;
    }
    Ok(())
}

// The numbers of a record, by their flags and the eight bytes of each.
fn say_numbers(rt: &impl Print, names: &Names, flags: &[u8], values: &[u8]) -> io::Result<()> {
    let numbers = flags.iter().zip(values.chunks_exact(8));
    for (name, (flag, value)) in names.numbers.iter().zip(numbers) {
        if *flag == 0 {
            println!(rt; "{name} missing")?;
        } else {
            println!(rt; "{name} {}", signed_of(read_word(value)))?;
        }
    }
    Ok(())
}

// A line by its number in a block: the answer and its column, and the record, its kind, the flags of its numbers, the numbers and the texts.
pub fn say_row(
    rt: &impl Print,
    names: &Names,
    number: usize,
    answer: &[usize; 2],
    record: &[u8; 240],
) -> io::Result<()> {
    let [answer, column] = *answer;
    println!(rt;
        "{} line {number}\nanswer {answer}\ncolumn {column}",
        names.row
    )?;
    let n = names.numbers.len();
    let Some((numbers, texts)) = record[1..].split_at_checked(9 * n) else {
        return Ok(());
    };
    let (flags, values) = numbers.split_at(n);
    say_texts(rt, names, texts)?;
    say_numbers(rt, names, flags, values)
}
