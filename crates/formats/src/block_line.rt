// A line of a block by itself: its trailing blanks, its kind, and whether it is accepted.
ghost use Rattle.std.specs.Prelude.{◌≡◌, ◌≤◌, length, take};
ghost use Rattle.columns.specs.Table.{outcome_of};
ghost use Rattle.formats.specs.Block.{trim_end, last_byte, begins_comment, read_comment};

use super::lines::BLANK;
use columns::bytes::first_barred;
use columns::{Reason, Refusal};

const OPENS: u8 = b'(';

const CLOSES: u8 = b')';

// How many bytes are left when the trailing blanks are removed.
pub fn trimmed(line: &[u8]) -> usize
    ensures { (trim_end line.now ≡ take result line.now) × (result ≤ length line.now) }
{
    for i in (0..line.len()).rev() {
        if line[i] != BLANK {
            return i + 1;
        }
    }
    0
}

// The last byte that is no blank, or 0.
fn last_byte(line: &[u8]) -> u8
    ensures { result ≡ last_byte (trim_end line.now) }
{
    match trimmed(line) {
        0 => 0,
        n => line[n - 1],
    }
}

// Whether a line begins with a blank and `(`.
pub fn begins_comment(line: &[u8]) -> bool
    ensures { result ≡ begins_comment line.now }
{
    2 <= line.len() && line[0] == BLANK && line[1] == OPENS
}

// A comment's answer; `seen` says whether a row stands before it.
pub fn judge_comment(line: &[u8], seen: bool) -> Result<(), Refusal>
    ensures { result ≡ outcome_of (read_comment seen line.now) }
{
    if 1024 < line.len() {
        return Err(Reason::Length.at(0));
    }
    if let Some(column) = first_barred(line, 1, 0, 0) {
        return Err(Reason::Barred.at(column));
    }
    if last_byte(line) != CLOSES {
        return Err(Reason::NotClosed.at(0));
    }
    if seen {
        return Ok(());
    }
    Err(Reason::OutOfPlace.at(0))
}
