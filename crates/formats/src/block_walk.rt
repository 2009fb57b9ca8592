// A block walked line by line, in one pass: each call is told what the call before it met.
ghost use Rattle.std.specs.Prelude.{◌≡◌, ◌≤◌, length, IfSome};
ghost use Rattle.formats.specs.Block.{kind_of};
ghost use Rattle.formats.specs.BlockWalk.{counted_line, nothing, known, line_after, first_line, next_line};
ghost use Rattle.formats.specs.Format.{header_of};

use super::block::is_header;
use super::block_line::{begins_comment, trimmed};
use super::block_reader::{Line, line_from};
use columns::Reason;

pub const NO_LINE: u8 = 0;

pub const HEADER_LINE: u8 = 40;

pub const ROW_LINE: u8 = 41;

pub const COMMENT_LINE: u8 = 42;

pub const CLOSING_LINE: u8 = 43;

// The largest number of rows, or of events, before a line.
pub const MOST: usize = 65534;

// A line of a block: its kind; the number, from 1, of the row that it is or that it belongs to; its end; and the place
// after it.
#[derive(Clone, Copy)]
pub struct BlockLine {
    pub kind: u8,
    pub number: usize,
    pub end: usize,
    pub next: usize,
}

// No line, or the number of a refusal.
pub fn no_line(number: u8) -> BlockLine
    ensures { result ≡ nothing number }
{
    BlockLine {
        kind: number,
        number: 0,
        end: 0,
        next: 0,
    }
}

// A line after the header, with the rows before it, its end and the place after it.
fn known_line(line: &[u8], before: usize, end: usize, next: usize) -> BlockLine
    requires { before ≤ 70000 }
    ensures { result ≡ known (kind_of line.now) before end next }
{
    let (kind, number) = if trimmed(line) == 0 {
        (CLOSING_LINE, 0)
    } else if begins_comment(line) {
        (COMMENT_LINE, before)
    } else {
        (ROW_LINE, before + 1)
    };
    BlockLine {
        kind,
        number,
        end,
        next,
    }
}

// The first line of a block of a kind, or its refusal.
pub fn first_line(kind: u8, block: &[u8]) -> BlockLine
    ensures { result ≡ first_line (header_of kind) block.now }
{
    if 65536 < block.len() {
        return no_line(u8::from(Reason::Length));
    }
    match line_from(block, 0) {
        Some(line) if is_header(kind, &block[line.start..line.end]) => BlockLine {
            kind: HEADER_LINE,
            number: 0,
            end: line.end,
            next: line.next,
        },
        _ => no_line(u8::from(Reason::OutOfPlace)),
    }
}

// The line at a place, after some rows or events: none where there are more than a number can tell.
pub fn counted_line(block: &[u8], at: usize, count: usize) -> Option<Line>
    ensures found { result ≡ counted_line block.now at count }
    ensures within { IfSome result (λ line. (line.start ≤ line.end) × (line.end ≤ length block.now)) }
    ensures few { IfSome result (λ line. count ≤ 65534) }
{
    if MOST < count {
        return None;
    }
    line_from(block, at)
}

// The line at a place, after some rows.
fn line_after(block: &[u8], at: usize, rows: usize) -> BlockLine
    ensures { result ≡ line_after block.now at rows }
{
    match counted_line(block, at, rows) {
        None => no_line(NO_LINE),
        Some(line) => known_line(&block[line.start..line.end], rows, line.end, line.next),
    }
}

// The line after one that was met.
pub fn next_line(block: &[u8], before: BlockLine) -> BlockLine
    ensures { result ≡ next_line block.now before }
{
    if 65536 < block.len() {
        return no_line(u8::from(Reason::Length));
    }
    if before.kind < HEADER_LINE || COMMENT_LINE < before.kind {
        return no_line(NO_LINE);
    }
    line_after(block, before.next, before.number)
}
