// A block of rows of any format, read.
ghost use Rattle.std.specs.Prelude.{◌≡◌, false, ◌≤◌, ◌<◌, length, drop};
ghost use Rattle.formats.specs.Lines.{lines_of};
ghost use Rattle.formats.specs.Block.{is_header, kind_of, plus, read_lines, at_most, read_block};
ghost use Rattle.formats.specs.Format.{format_of, header_of, block_of};
ghost use Rattle.formats.specs.Row.{read_row};
ghost use Rattle.formats.specs.BlockSteps.{step_of};

use super::LineRefusal;
use super::block_line::{begins_comment, judge_comment, trimmed};
use super::block_reader::line_from;
use super::header::header_words;
use super::row::judge_row;
use columns::bytes::same;
use columns::{Reason, Refusal};

// What a block that was read has: its rows, its comments and the bytes used.
#[derive(Clone, Copy, PartialEq, Eq, Debug)]
pub struct Counts {
    pub rows: usize,
    pub comments: usize,
    pub used: usize,
}

// Whether a line, trailing blanks removed, is the header of the blocks of a kind.
pub fn is_header(kind: u8, line: &[u8]) -> bool
    ensures { result ≡ is_header (header_of kind) line.now }
{
    same(&line[..trimmed(line)], header_words(kind))
}

// A line after the header, with the rows and comments before it: those with it, or none where it closes the block.
fn line_step(
    kind: u8,
    line: &[u8],
    rows: usize,
    comments: usize,
) -> Result<Option<(usize, usize)>, Refusal>
    requires { (rows < 70000) × (comments < 70000) }
    ensures { result ≡ step_of (read_row (format_of kind).columns) (kind_of line.now) rows comments line.now }
{
    if trimmed(line) == 0 {
        return Ok(None);
    }
    if begins_comment(line) {
        judge_comment(line, 0 < rows)?;
        return Ok(Some((rows, comments + 1)));
    }
    judge_row(kind, line)?;
    Ok(Some((rows + 1, comments)))
}

// The lines from place `from` on, the first of them line 2.
fn read_lines(kind: u8, block: &[u8], from: usize) -> Result<Counts, LineRefusal>
    requires { (from ≤ length block.now) × (length block.now ≤ 65536) }
    ensures { result ≡ at_most (length block.now) (plus 0 0 from (read_lines (read_row (format_of kind).columns) 2 false (lines_of (drop from block.now)))) }
{
    let mut at = from;
    let mut line = 2;
    let mut rows = 0;
    let mut comments = 0;
    while let Some(found) = line_from(block, at) {
        match line_step(kind, &block[found.start..found.end], rows, comments) {
            Err(refusal) => return Err(LineRefusal::on_line(refusal, line)),
            Ok(None) => {
                return Ok(Counts {
                    rows,
                    comments,
                    used: found.next,
                });
            }
            Ok(Some((p, k))) => {
                rows = p;
                comments = k;
                at = found.next;
                line += 1;
            }
        }
    }
    Ok(Counts {
        rows,
        comments,
        used: at,
    })
}

// A block of the format of a kind, of any bytes and any length.
pub fn read_block(kind: u8, block: &[u8]) -> Result<Counts, LineRefusal>
    ensures { result ≡ read_block (block_of kind) block.now }
{
    if 65536 < block.len() {
        return Err(LineRefusal::on_line(Reason::Length.at(0), 0));
    }
    match line_from(block, 0) {
        Some(first) if is_header(kind, &block[first.start..first.end]) => {
            read_lines(kind, block, first.next)
        }
        _ => Err(LineRefusal::on_line(Reason::OutOfPlace.at(0), 1)),
    }
}
