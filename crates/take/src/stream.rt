// Standard input to standard output, through a chunk of the input and a buffer of gathered output.
ghost use Rattle.std.specs.Prelude.{◌≡◌, [], ◌+◌, ◌≤◌, length};
ghost use Rattle.take.specs.Session.{bytes};
ghost use Rattle.take.specs.Steps.{most_lines, Brought, Passed, Finished};

use super::intake::Intake;
use super::page::Page;
use super::text::{put_catalogue, put_heading};
use std::io;
use std::io::Read;

// The most bytes gathered.
pub const PAGE: usize = 65536;

// The most gathered bytes behind which any answer, of at most 63 bytes, still fits.
const FULL: usize = 65473;

// Nothing says that the input ends, and a loop has to: 2^47 reads, more than any run makes.
const READS: u64 = 140737488355328;

// Reading or writing has failed, and standard error was told so.
#[derive(Clone, Copy)]
pub struct Failed;

// Says on standard error what failed, and why. Where that fails too, nothing is left to say it on.
fn complain<R: Eprint>(rt: &R, what: &str, error: io::Error) -> Failed {
    let _ = eprintln!(rt; "take: {what}: {error}");
    Failed
}

// Writes what is gathered.
fn write_out<R: Print + Eprint>(rt: &R, out: &Page<PAGE>) -> Result<(), Failed> {
    match rt.write_all(out.written()) {
        Ok(()) => Ok(()),
        Err(error) => Err(complain(rt, "standard output", error)),
    }
}

// Writes what is gathered, unless a write has failed before, and gathers anew.
fn flush<R: Print + Eprint>(
    rt: &R,
    out: &mut Page<PAGE>,
    before: Result<(), Failed>,
) -> Result<(), Failed>
    ensures { out.new ≡ [] }
{
    let outcome = match before {
        Ok(()) => write_out(rt, out),
        Err(failed) => Err(failed),
    };
    out.clear();
    outcome
}

// Writes what is gathered where a whole answer may not fit behind it.
fn make_space<R: Print + Eprint>(
    rt: &R,
    out: &mut Page<PAGE>,
    before: Result<(), Failed>,
) -> Result<(), Failed>
    ensures { length out.new + 63 ≤ 65536 }
{
    if out.len() <= FULL {
        before
    } else {
        flush(rt, out, before)
    }
}

// Takes the bytes of a chunk, those after a write that failed too.
fn take_chunk<R: Print + Eprint>(
    rt: &R,
    intake: &mut Intake,
    out: &mut Page<PAGE>,
    chunk: &[u8],
) -> Result<(), Failed>
    requires { intake.old.number + length chunk.now ≤ most_lines }
    ensures { (intake.new ≡ bytes intake.old chunk.now) × (intake.new.number ≤ intake.old.number + length chunk.now) }
{
    let mut rest = chunk;
    let mut outcome = Ok(());
    while !rest.is_empty() {
        outcome = make_space(rt, out, outcome);
        let n = intake.take_next(out, rest);
        rest = &rest[n..];
    }
    outcome
}

// Reads once, and takes what came: how many bytes that is, 0 at the end of the input, and whether anything failed. What is gathered
// is written where reading fails.
fn read_next<R: Print + Eprint, I: Read>(
    rt: &R,
    input: &mut I,
    intake: &mut Intake,
    chunk: &mut [u8],
    out: &mut Page<PAGE>,
) -> (usize, Result<(), Failed>)
    requires { (length chunk.old ≡ 65536) × (intake.old.number + 65536 ≤ most_lines) }
    ensures { Brought intake.old chunk.new result.0 intake.new }
{
    match input.read(chunk) {
        Ok(n) => (n, take_chunk(rt, intake, out, &chunk[..n])),
        Err(error) => {
            let failed = complain(rt, "standard input", error);
            let _ = write_out(rt, out);
            (0, Err(failed))
        }
    }
}

// Reads to the end of the input, or until something fails.
fn read_all<R: Print + Eprint, I: Read>(
    rt: &R,
    input: &mut I,
    intake: &mut Intake,
    chunk: &mut [u8],
    out: &mut Page<PAGE>,
) -> Result<(), Failed>
    requires { (length chunk.old ≡ 65536) × (intake.old.number ≡ 0) }
    ensures { Passed intake.old intake.new × (intake.new.number ≤ most_lines) }
{
    for _ in 0..READS {
        let (n, outcome) = read_next(rt, input, intake, chunk, out);
        outcome?;
        if n == 0 {
            return Ok(());
        }
    }
    let _ = eprintln!(rt; "take: standard input: too long");
    let _ = write_out(rt, out);
    Err(Failed)
}

// Ends the last line, and prints the catalogue, unless a write fails before it.
fn finish<R: Print + Eprint>(
    rt: &R,
    intake: &mut Intake,
    out: &mut Page<PAGE>,
) -> Result<(), Failed>
    requires { intake.old.number ≤ most_lines }
    ensures { Finished intake.old intake.new out.new }
{
    let space = make_space(rt, out, Ok(()));
    intake.close(out);
    let answers = flush(rt, out, space);
    put_catalogue(out, intake.room());
    answers?;
    write_out(rt, out)
}

// A whole run into what is lent: the heading, each line's answer, the catalogue. Where reading or writing fails, standard error says so,
// and the catalogue is not printed.
pub fn run_into<R: io::Input + Print + Eprint>(
    rt: &R,
    intake: &mut Intake,
    chunk: &mut [u8],
    out: &mut Page<PAGE>,
)
    requires { (intake.old.number ≡ 0) × (length chunk.old ≡ 65536) × (length out.old ≡ 0) }
{
    put_heading(out);
    let mut input = rt.reader();
    if read_all(rt, &mut input, intake, chunk, out).is_ok() {
        let _ = finish(rt, intake, out);
    }
}

// The same into an empty room.
#[tactic(auto, unfolding(crate::specs::Session::opened))]
pub fn run<R: io::Input + Print + Eprint>(rt: &R) {
    let mut intake = Intake::new();
    let mut chunk = [0u8; 65536];
    let mut out = Page::new();
    run_into(rt, &mut intake, &mut chunk, &mut out);
}
