// Prints a phase block and an arrival block of document 003's example lines and what the library reads in each: its counts, and the
// record of each line. A write that fails ends it with that error.
#![tactic(auto)]

mod arrivals;
mod example;
mod names;
mod report;

use columns::Refusal;
use formats::LineRefusal;
use formats::block::{Counts, read_block};
use formats::block_walk::{ROW_LINE, first_line, next_line};
use formats::row::read_row_into;
use names::{ARRIVALS, Names, PHASES};
use std::io;

// More lines than either block has.
const MOST_LINES: usize = 32;

// The answer for a line and its column; 0 where it is read.
fn line_numbers(outcome: Result<usize, Refusal>) -> [usize; 2] {
    match outcome {
        Ok(_) => [0, 0],
        Err(refusal) => [usize::from(u8::from(refusal.reason)), refusal.column],
    }
}

// The answer for a block, its column and line, and the counts; 0 where there is nothing.
fn block_numbers(outcome: Result<Counts, LineRefusal>) -> [usize; 6] {
    match outcome {
        Ok(counts) => [0, 0, 0, counts.rows, counts.comments, counts.used],
        Err(refusal) => {
            let answer = usize::from(u8::from(refusal.reason));
            [answer, refusal.column, refusal.line, 0, 0, 0]
        }
    }
}

// Reads a line by its number in a block, from 1, and prints its record.
fn show_row(rt: &impl Print, names: &Names, number: usize, line: &[u8]) -> io::Result<()> {
    let mut record = [0u8; 240];
    let answer = line_numbers(read_row_into(names.kind, line, &mut record));
    report::say_row(rt, names, number, &answer, &record)
}

// Prints a block, its counts, and each row that a walk meets.
fn show(rt: &impl Print, names: &Names, block: &[u8]) -> io::Result<()> {
    rt.write_all(block)?;
    report::say_counts(rt, names, &block_numbers(read_block(names.kind, block)))?;
    let mut from = 0;
    let mut met = first_line(names.kind, block);
    for _ in 0..MOST_LINES {
        if met.kind == ROW_LINE {
            let line = block.get(from..met.end).unwrap_or(&[]);
            show_row(rt, names, met.number, line)?;
        }
        from = met.next;
        met = next_line(block, met);
    }
    Ok(())
}

fn main(rt: HostRuntime) -> io::Result<()> {
    show(&rt, &PHASES, &example::BLOCK)?;
    show(&rt, &ARRIVALS, &arrivals::BLOCK)
}
