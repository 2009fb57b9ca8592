// Runs the examples of document 004 through the library's reader, and holds a second reader against it on those lines and
// on lines made from them. A write that fails ends it with that error.
#![tactic(auto)]

mod compare;
mod groups;
mod report;
mod second;

ghost use Rattle.std.specs.Prelude.{◌≤◌, length};

use compare::{Comparison, comes_back, reading};
use formats::cube_record::RECORD;
use report::say_record;
use std::io;

// The two E examples, the DE example and the two LI examples of document 004.
const FIRST: [u8; 80] =
    *b"E 09082344CI21999040217051050339860-1169945017316000014001800120009004332C0002hP";

const SECOND: [u8; 80] =
    *b"E meav    US3199904021838195-201884 1681247 33054 19 192283 062 387  00  B 8   v";

const DELETE: [u8; 37] = *b"DE09081845CI2 EVENT CANCELLED:  (LKH)";

const LINK: [u8; 57] = *b"LI 006729 NC01 fm http://whatever/whoknows This is a test";

const UNLINK: [u8; 50] = *b"LI 006729 NC01 fm http://whatever/whoknows delete:";

// Prints an example, the library's answer to it, and the record.
fn show(rt: &impl Print, line: &[u8]) -> io::Result<()> {
    print!(rt; "line ")?;
    rt.write_all(line)?;
    println!(rt)?;
    let mut bytes = [0u8; RECORD];
    let read = reading(line, &mut bytes);
    let (answer, column) = read.err().unwrap_or((0, 0));
    println!(rt; "answer {answer}\ncolumn {column}")?;
    match read {
        Ok(Some(record)) => say_record(rt, &record),
        _ => Ok(()),
    }
}

// Prints an LI example, and whether its record is written as the line that was read.
fn show_link(rt: &impl Print, line: &[u8]) -> io::Result<()> {
    show(rt, line)?;
    let back = if comes_back(line) {
        "the same"
    } else {
        "otherwise"
    };
    println!(rt; "written back {back}")
}

// The examples themselves.
fn examples(run: &mut Comparison<'_, impl Print>) -> io::Result<()> {
    for line in [&FIRST[..], &SECOND, &LINK, &UNLINK] {
        run.compare(line)?;
    }
    run.close("examples")
}

// The lines made from an E example.
fn events(run: &mut Comparison<'_, impl Print>, line: [u8; 80]) -> io::Result<()> {
    run.changed(&mut { line })?;
    run.close("  one byte changed")?;
    run.changed_checked(line)?;
    run.close("  one byte changed, check right")?;
    run.filled(line)?;
    run.close("  columns filled, check right")?;
    run.range_ends(line)?;
    run.close("  ends of ranges, check right")?;
    run.calendar(line)?;
    run.close("  ends of months, check right")?;
    run.lengths(&line)?;
    run.close("  lengths 0 to 90")
}

// The lines made from a DE or an LI example.
fn texts(run: &mut Comparison<'_, impl Print>, line: &mut [u8]) -> io::Result<()>
    requires { length line.old ≤ 90 }
{
    run.changed(line)?;
    run.close("  one byte changed")?;
    run.lengths(line)?;
    run.close("  lengths 0 to 90")
}

fn main(rt: HostRuntime) -> io::Result<()> {
    show(&rt, &FIRST)?;
    show(&rt, &SECOND)?;
    show_link(&rt, &LINK)?;
    show_link(&rt, &UNLINK)?;
    let mut run = Comparison::new(&rt);
    examples(&mut run)?;
    println!(rt; "from the first example")?;
    events(&mut run, FIRST)?;
    println!(rt; "from the second example")?;
    events(&mut run, SECOND)?;
    println!(rt; "from the delete example")?;
    texts(&mut run, &mut { DELETE })?;
    println!(rt; "from the first link example")?;
    texts(&mut run, &mut { LINK })?;
    println!(rt; "from the second link example")?;
    texts(&mut run, &mut { UNLINK })?;
    run.say_answers()
}
