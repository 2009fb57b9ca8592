// A row of any format: its line read, its record's bytes, lines read into them and written from them.
ghost use Rattle.std.specs.Prelude.{◌≡◌, length};
ghost use Rattle.columns.specs.Column.{all_slots, all_texts};
ghost use Rattle.columns.specs.Bytes.{same_bytes};
ghost use Rattle.columns.specs.Row.{row_size};
ghost use Rattle.columns.specs.Table.{over, outcome_of, ReadPart};
ghost use Rattle.formats.specs.Record.{packed, Replied};
ghost use Rattle.formats.specs.Row.{Made, read_row, row_part, named_row, row_line_answer, read_row_into, write_row_from};
ghost use Rattle.formats.specs.Format.{format_of};

use super::format::format_of;
use super::record::{get_numbers, pack};
use super::table::{read_cells, write_cells};
use columns::bytes::{copy, first_barred, same};
use columns::{Reason, Refusal};

// What is asked of a line of the format of a kind before anything else: its length and its bytes.
#[inline(always)]
pub fn judge_made(kind: u8, line: &[u8]) -> Result<(), Refusal>
    ensures { Made (format_of kind).columns line.now result }
{
    if format_of(kind).width < line.len() {
        return Err(Reason::Length.at(0));
    }
    match first_barred(line, 1, 0, 0) {
        Some(column) => Err(Reason::Barred.at(column)),
        None => Ok(()),
    }
}

// A line of any bytes and any length, read by the format of a kind: its numbers with their flags (a time or a date takes three) and its text
// bytes over the first places of the lent record, in the order of the columns. Where a column is refused, those before it stand
// there.
pub fn read_row(
    kind: u8,
    line: &[u8],
    flags: &mut [u8; 40],
    values: &mut [i64; 40],
    text: &mut [u8; 160],
) -> Result<(), Refusal>
    ensures { ReadPart (read_row (format_of kind).columns line.now) (row_part (format_of kind).columns line.now) result flags.old flags.new values.old values.new text.old text.new }
{
    judge_made(kind, line)?;
    let width = format_of(kind).width;
    let mut filled = [b' '; 256];
    copy(&mut filled, line);
    // not the answer handed on: where all is well it's then not copied
    read_cells(kind, &filled[0..width], flags, values, text)?;
    Ok(())
}

// The answer for a line alone, without its record.
#[inline(never)]
pub fn judge_row(kind: u8, line: &[u8]) -> Result<(), Refusal>
    ensures { result ≡ outcome_of (read_row (format_of kind).columns line.now) }
{
    let mut flags = [0u8; 40];
    let mut values = [0i64; 40];
    let mut text = [0u8; 160];
    read_row(kind, line, &mut flags, &mut values, &mut text)
}

// Whether bytes are those of a record of the format of a kind.
fn is_row(kind: u8, flags: &[u8], values: &[i64], text: &[u8], from: &[u8]) -> bool
    requires { (length flags.now ≡ all_slots (format_of kind).columns) × ((length values.now ≡ all_slots (format_of kind).columns) × ((length text.now ≡ all_texts (format_of kind).columns) × (length from.now ≡ row_size (format_of kind).columns))) }
    ensures { result ≡ same_bytes (packed (format_of kind).kind flags.now values.now text.now) from.now }
{
    let f = format_of(kind);
    let size = from.len();
    let mut bytes = [0u8; 512];
    pack(&mut bytes, f.kind, flags, values, text);
    same(&bytes[0..size], from)
}

// A line read into a record of the format of a kind, over the first bytes of `out`. Nothing is changed where it is refused.
pub fn read_row_into(kind: u8, line: &[u8], out: &mut [u8]) -> Result<usize, Refusal>
    ensures { Replied (read_row_into (format_of kind) line.now (length out.old)) result out.old out.new }
{
    let f = format_of(kind);
    let n = f.numbers;
    let t = f.texts;
    let size = 1 + n + 8 * n + t;
    if out.len() < size {
        return Err(Reason::Short.at(0));
    }
    let mut flags = [0u8; 40];
    let mut values = [0i64; 40];
    let mut text = [0u8; 160];
    read_row(kind, line, &mut flags, &mut values, &mut text)?;
    pack(out, f.kind, &flags[0..n], &values[0..n], &text[0..t]);
    Ok(size)
}

// The line of the record that exactly as many bytes name, taken out of them into the lent places.
fn write_named(
    kind: u8,
    from: &[u8],
    flags: &mut [u8],
    values: &mut [i64],
    text: &mut [u8],
    out: &mut [u8],
) -> Result<usize, Refusal>
    requires { (length from.now ≡ row_size (format_of kind).columns) × ((length flags.old ≡ all_slots (format_of kind).columns) × ((length values.old ≡ all_slots (format_of kind).columns) × (length text.old ≡ all_texts (format_of kind).columns))) }
    ensures { Replied (row_line_answer (format_of kind).columns (named_row (format_of kind) from.now) (length out.old)) result out.old out.new }
{
    let f = format_of(kind);
    let size = from.len();
    let numbers = 1 + f.numbers;
    let chars = numbers + 8 * f.numbers;
    get_numbers(&from[1..size], &from[numbers..size], flags, values);
    copy(text, &from[chars..size]);
    if is_row(kind, flags, values, text, from) {
        write_cells(kind, flags, values, text, out)?;
        return Ok(f.width);
    }
    Err(Reason::Form.at(0))
}

// A line written from a record of the format of a kind, over the first bytes of `out`. Nothing is changed where it is refused.
pub fn write_row_from(kind: u8, from: &[u8], out: &mut [u8]) -> Result<usize, Refusal>
    ensures { Replied (write_row_from (format_of kind) from.now (length out.old)) result out.old out.new }
{
    let f = format_of(kind);
    let n = f.numbers;
    let t = f.texts;
    let size = 1 + n + 8 * n + t;
    if from.len() < size {
        return Err(Reason::Form.at(0));
    }
    let mut flags = [0u8; 40];
    let mut values = [0i64; 40];
    let mut text = [0u8; 160];
    write_named(
        kind,
        &from[0..size],
        &mut flags[0..n],
        &mut values[0..n],
        &mut text[0..t],
        out,
    )
}
