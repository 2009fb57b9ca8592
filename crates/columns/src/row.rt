// A row of a file format: a record whose columns' numbers are there together or missing together, written as a line.
ghost use Rattle.std.specs.Prelude.{◌≡◌, ◌+◌, ◌≤◌, length};
ghost use Rattle.columns.specs.Bytes.{found};
ghost use Rattle.columns.specs.Column.{widths, all_slots};
ghost use Rattle.columns.specs.Table.{columns_in, slots_of, Table, Wrote};
ghost use Rattle.columns.specs.Row.{all_same, alike, whole, write_whole};
ghost use Rattle.columns.specs.Cut.{line_part, past_part, not_filled, first_filled, write_cut_whole, Writable};

use super::bytes::is_blank;
use super::column::{Layout, column_in, slots_in, texts_in, width_in};
use super::writer::write_columns;
use super::{Reason, Refusal};

// The columns of a record past the end of its line: how many, and the numbers and the text bytes before them.
#[derive(Clone, Copy)]
pub struct Past {
    pub rows: usize,
    pub numbers: usize,
    pub texts: usize,
}

// Whether all flags are f.
fn all_same(flags: &[u8], f: u8) -> bool
    ensures { result ≡ all_same f flags.now }
{
    flags.iter().all(|flag| *flag == f)
}

// Whether all flags are the same.
fn all_alike(flags: &[u8]) -> bool
    ensures { result ≡ alike flags.now }
{
    match flags.split_first() {
        None => true,
        Some((first, rest)) => all_same(rest, *first),
    }
}

// Whether the flags of each column's numbers are alike.
fn is_whole(layout: &Layout<'_>, flags: &[u8]) -> bool
    requires { all_slots (columns_in layout.now) ≤ length flags.now }
    ensures { result ≡ whole (columns_in layout.now) flags.now }
{
    let mut k = 0;
    for row in layout.rows {
        let end = k + slots_in(column_in(*row));
        if !all_alike(&flags[k..end]) {
            return false;
        }
        k = end;
    }
    true
}

// Whether a column with these flags and this text is not filled.
fn not_filled(flags: &[u8], text: &[u8]) -> bool
    ensures { result ≡ not_filled flags.now text.now }
{
    all_same(flags, 0) && is_blank(text)
}

// The first column of the first filled field, of columns of which the first comes after `start` bytes of the line. The flags and the
// text are those of these columns.
fn first_filled(layout: &Layout<'_>, flags: &[u8], text: &[u8], start: usize) -> Option<usize>
    requires { Table (columns_in layout.now) start 512 0 (length flags.now) (length flags.now) 0 (length text.now) }
    ensures { result ≡ found (first_filled (columns_in layout.now) start flags.now text.now) }
{
    let mut at = start;
    let mut k = 0;
    let mut t = 0;
    for row in layout.rows {
        let c = column_in(*row);
        let end = k + slots_in(c);
        let to = t + texts_in(c);
        if !not_filled(&flags[k..end], &text[t..to]) {
            return Some(at + 1);
        }
        at += width_in(c);
        k = end;
        t = to;
    }
    None
}

// A line of its own, over the first bytes of `out`, from a record that is whole: 6 at column 0 where it is not, then as
// write_columns answers. Nothing is changed where it is refused.
pub fn write_row(
    flags: &[u8],
    values: &[i64],
    text: &[u8],
    layout: &Layout<'_>,
    width: usize,
    out: &mut [u8],
) -> Result<(), Refusal>
    requires { (width ≡ widths (columns_in layout.now)) × Table (columns_in layout.now) 0 512 0 (length flags.now) (length values.now) 0 (length text.now) }
    ensures { Wrote (write_whole (columns_in layout.now) flags.now (slots_of flags.now values.now) text.now (length out.old)) result out.old out.new }
{
    if !is_whole(layout, flags) {
        return Err(Reason::Form.at(0));
    }
    write_columns(flags, values, text, layout, width, out)
}

// A line of the columns before those past its end, over the first bytes of `out`, from a record that is whole: 6 at column 0 where it is
// not; 11 where `out` is too short; 17 at the first filled field past the line's columns; then as write_columns answers. Nothing is
// changed where it is refused.
pub fn write_cut_row(
    flags: &[u8],
    values: &[i64],
    text: &[u8],
    layout: &Layout<'_>,
    past: Past,
    width: usize,
    out: &mut [u8],
) -> Result<(), Refusal>
    requires { Writable (line_part layout.now past) (past_part layout.now past) past (length layout.now.rows.now) width (length flags.now) (length values.now) (length text.now) }
    ensures { Wrote (write_cut_whole (line_part layout.now past) (past_part layout.now past) flags.now (slots_of flags.now values.now) text.now (length out.old)) result out.old out.new }
{
    if !is_whole(layout, flags) {
        return Err(Reason::Form.at(0));
    }
    if out.len() < width {
        return Err(Reason::Short.at(0));
    }
    let n = layout.rows.len() - past.rows;
    let dropped = layout.part(n, layout.rows.len());
    let filled = first_filled(&dropped, &flags[past.numbers..], &text[past.texts..], width);
    if let Some(column) = filled {
        return Err(Reason::Dropped.at(column));
    }
    write_columns(flags, values, text, &layout.part(0, n), width, out)
}
