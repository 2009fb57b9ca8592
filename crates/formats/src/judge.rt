// Lines judged: whether a line is an acceptable event, with nothing stored, or an acceptable link.
ghost use Rattle.std.specs.Prelude.{◌≡◌, [], ◌*◌, ◌≤◌, length};
ghost use Rattle.columns.specs.Judge.{Judgeable};
ghost use Rattle.columns.specs.Table.{columns_of};
ghost use Rattle.formats.specs.Judge.{is_event_line, is_link_line, Sealing};

use super::check::{check_from, with_three};
use super::cube::{EVENT_COLUMNS, EVENT_ROWS, Parts, read_line};
use super::ranges::EVENT_RANGES;
use columns::bytes::first_barred;
use columns::column::{column_in, width_in};
use columns::judge::cell_ok_within;

// The columns of a table of integers and text, judged after the first `start` bytes of the line, and the check sum of three bytes of
// `head` for each: neither waits for the other, so that the processor works at both. No sum where a column is refused.
fn judge_sealed(line: &[u8], start: usize, head: &[u8], rows: &[u32], ranges: &[i64]) -> Option<u16>
    requires { Judgeable (columns_of rows.now ranges.now []) 0 start (length line.now) × (3 * length rows.now ≤ length head.now) }
    ensures { Sealing (columns_of rows.now ranges.now []) start line.now (3 * length rows.now) head.now result }
{
    let mut sum: u16 = 0;
    let mut at = start;
    for (i, row) in rows.iter().enumerate() {
        let c = column_in(*row);
        if !cell_ok_within(line, at, c, ranges) {
            return None;
        }
        sum = with_three(sum, head, 3 * i);
        at += width_in(c);
    }
    Some(sum)
}

// Whether the line is an acceptable E line.
pub fn is_event(line: &[u8]) -> bool
    ensures { result ≡ is_event_line line.now }
{
    if line.len() != 80 || line[0] != b'E' || line[1] != b' ' {
        return false;
    }
    let head = &line[0..79];
    if first_barred(head, 1, 3, 13).is_some() {
        return false;
    }
    match judge_sealed(line, 2, head, &EVENT_ROWS, &EVENT_RANGES) {
        None => false,
        Some(sum) => line[79] == check_from(head, 3 * EVENT_COLUMNS, sum),
    }
}

// Whether the line is an acceptable LI line.
pub fn is_link(line: &[u8]) -> bool
    ensures { result ≡ is_link_line line.now }
{
    let mut flags = [0u8; 19];
    let mut values = [0i64; 19];
    let mut text = [0u8; 96];
    match read_line(line, &mut flags, &mut values, &mut text) {
        Ok(Parts::Link { .. }) => true,
        _ => false,
    }
}
