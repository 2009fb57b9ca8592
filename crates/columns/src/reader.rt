// A line read by a table of columns into a lent record.
ghost use Rattle.std.specs.Prelude.{◌≡◌, [], ◌∷◌, ◌+◌, ◌≤◌, ◌<◌, length, drop};
ghost use Rattle.columns.specs.Reading.{read_columns, read_part};
ghost use Rattle.columns.specs.Table.{columns_in, flag_of, value_of, flags_of, values_of, placed, Table, ReadPart};
ghost use Rattle.columns.specs.Cell.{slot, cell_rec, Storable, Stored};

use super::Refusal;
use super::bytes::copy_at;
use super::column::{Layout, column_in, slots_in, texts_in};
use super::cursor::{Cell, Cursor};

// A number of the record at place k, and whether it is there.
fn put_number(flags: &mut [u8], values: &mut [i64], k: usize, number: Option<i64>)
    requires { (k < length flags.old) × (k < length values.old) }
    ensures { (flags.new ≡ placed k (flag_of (slot number) ∷ []) flags.old) × (values.new ≡ placed k (value_of (slot number) ∷ []) values.old) }
{
    flags[k] = u8::from(number.is_some());
    values[k] = number.unwrap_or(0);
}

// Three numbers of the record from place k on.
fn put_three(flags: &mut [u8], values: &mut [i64], k: usize, flag: u8, h: i64, m: i64, s: i64)
    requires { (k + 3 ≤ length flags.old) × (k + 3 ≤ length values.old) }
    ensures { (flags.new ≡ placed k (flag ∷ flag ∷ flag ∷ []) flags.old) × (values.new ≡ placed k (h ∷ m ∷ s ∷ []) values.old) }
{
    flags[k] = flag;
    flags[k + 1] = flag;
    flags[k + 2] = flag;
    values[k] = h;
    values[k + 1] = m;
    values[k + 2] = s;
}

// What a column with the bytes `f` holds, into the record: its numbers from place k on, its text from place t on.
fn store(
    cell: Cell,
    f: &[u8],
    flags: &mut [u8],
    values: &mut [i64],
    k: usize,
    text: &mut [u8],
    t: usize,
)
    requires { Storable (cell_rec cell f.now) k (length flags.old) (length values.old) t (length text.old) }
    ensures { Stored (cell_rec cell f.now) k flags.old flags.new values.old values.new t text.old text.new }
{
    match cell {
        Cell::Number(number) => put_number(flags, values, k, number),
        Cell::NoThree => put_three(flags, values, k, 0, 0, 0, 0),
        Cell::Three(x, y, z) => put_three(flags, values, k, 1, x, y, z),
        Cell::Chars => copy_at(text, t, f),
        Cell::Gap => {}
    }
}

// The columns of a table, read from the line after its first `start` bytes: the numbers and the text over the first places of the record.
// Where one is refused, those before it stand there.
pub fn read_columns(
    line: &[u8],
    start: usize,
    layout: &Layout<'_>,
    flags: &mut [u8],
    values: &mut [i64],
    text: &mut [u8],
) -> Result<(), Refusal>
    requires { Table (columns_in layout.now) start (length line.now) 0 (length flags.old) (length values.old) 0 (length text.old) }
    ensures { ReadPart (read_columns (columns_in layout.now) [] start (drop start line.now)) (read_part (columns_in layout.now) [] start (drop start line.now)) result flags.old flags.new values.old values.new text.old text.new }
{
    let mut cursor = Cursor { at: start };
    let mut k = 0;
    let mut t = 0;
    for row in layout.rows {
        let c = column_in(*row);
        let read = cursor.cell_within(line, c, layout, flags, values, k);
        let bytes = &line[cursor.at..read.next.at];
        store(read.value?, bytes, flags, values, k, text, t);
        k += slots_in(c);
        t += texts_in(c);
        cursor = read.next;
    }
    Ok(())
}
