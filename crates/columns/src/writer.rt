// A record written by a table of columns into a lent line.
ghost use Rattle.std.specs.Prelude.{◌≡◌, false, [], ◌∷◌, ◌+◌, ◌≤◌, ◌<◌, length, take, drop, get_or, replicate, T, pos};
ghost use Rattle.columns.specs.Answer.{pick, ok, refusal, required_blank, wrong_letter};
ghost use Rattle.columns.specs.Bytes.{found, member};
ghost use Rattle.columns.specs.Number.{form_width, good_form};
ghost use Rattle.columns.specs.Column.{rule_bars, width, slots, texts, good_col, widths};
ghost use Rattle.columns.specs.Reading.{judge_text};
ghost use Rattle.columns.specs.Writing.{barred_in, put_number, put_text, write_cell, write_columns, write_line, write_part};
ghost use Rattle.columns.specs.Table.{Within, col_of, columns_in, slots_by, texts_by, slot_of, slots_of, Wrote, WrotePart, Ready, Table};

use super::bytes::{blanks, copy, fill, first_barred, has, is_barred};
use super::column::{
    Column, Layout, Rule, allows, column_in, rule_reason, slots_in, texts_in, width_in,
};
use super::group::{group_at, write_group};
use super::number::Form;
use super::written::{holds_number, write_number};
use super::{Reason, Refusal};

// ---- one field: what is refused leaves `out` as it was

fn write_missing(out: &mut [u8], at: usize, required: bool) -> Result<(), Refusal>
    requires { at ≤ 4096 }
    ensures { Wrote (pick required (refusal required_blank (at + 1)) (ok (replicate (length out.old) 32))) result out.old out.new }
{
    if required {
        return Err(Reason::Required.at(at + 1));
    }
    blanks(out);
    Ok(())
}

// A number's field; `fits` is the outcome of the range step.
fn put_number(
    out: &mut [u8],
    at: usize,
    form: Form,
    required: bool,
    fits: bool,
    there: u8,
    v: i64,
) -> Result<(), Refusal>
    requires { (at ≤ 4096) × ((length out.old ≡ form_width form) × T (good_form form)) }
    ensures { Wrote (put_number form required (λ x. fits) at (slot_of there v)) result out.old out.new }
{
    if there == 0 {
        return write_missing(out, at, required);
    }
    if !holds_number(form, v) {
        return Err(Reason::Wide.at(at + 1));
    }
    if !fits {
        return Err(Reason::Range.at(at + 1));
    }
    write_number(out, form, v);
    Ok(())
}

// The column of the first barred byte of a text field.
fn barred_in(s: &[u8], at: usize, bars: bool) -> Option<usize>
    requires { at + length s.now ≤ 4096 }
    ensures { result ≡ found (barred_in bars at s.now) }
{
    let (from, to) = if bars { (at + 1, at + s.len()) } else { (0, 0) };
    first_barred(s, at + 1, from, to)
}

// Text with no barred byte.
fn put_plain(out: &mut [u8], at: usize, bars: bool, s: &[u8]) -> Result<(), Refusal>
    requires { (at + length s.now ≤ 4096) × (length out.old ≡ length s.now) }
    ensures { Wrote (put_text bars at s.now (ok s.now)) result out.old out.new }
{
    if let Some(column) = barred_in(s, at, bars) {
        return Err(Reason::Barred.at(column));
    }
    copy(out, s);
    Ok(())
}

// Text with its rule.
fn put_text(out: &mut [u8], at: usize, rule: Rule, s: &[u8]) -> Result<(), Refusal>
    requires { (at + length s.now ≤ 4096) × ((1 ≤ length s.now) × (length out.old ≡ length s.now)) }
    ensures { Wrote (judge_text rule at s.now (put_text (rule_bars rule) at s.now (ok s.now))) result out.old out.new }
{
    if rule.refuses(s) {
        return Err(rule_reason(rule).at(at + 1));
    }
    put_plain(out, at, rule == Rule::NoBrackets, s)
}

// A letter of a set.
fn put_letter(out: &mut [u8], at: usize, set: &[u8], s: &[u8]) -> Result<(), Refusal>
    requires { (at + length s.now ≤ 4096) × ((length s.now ≡ 1) × (length out.old ≡ length s.now)) }
    ensures { Wrote (put_text false at s.now (pick (member (get_or s.now 0 0) set.now) (ok s.now) (refusal wrong_letter (at + 1)))) result out.old out.new }
{
    let b = s[0];
    if is_barred(b, at + 1, 0, 0) {
        return Err(Reason::Barred.at(at + 1));
    }
    if !has(set, b) {
        return Err(Reason::Letter.at(at + 1));
    }
    out[0] = b;
    Ok(())
}

// ---- a column of a table

// Any column, its numbers from place k and its text from place t of the record.
fn write_cell(
    out: &mut [u8],
    at: usize,
    c: Column,
    layout: &Layout<'_>,
    flags: &[u8],
    values: &[i64],
    k: usize,
    text: &[u8],
    t: usize,
) -> Result<(), Refusal>
    requires { Within 65536 256 c × Ready (col_of c layout.now.ranges.now layout.now.letters.now) (length out.old) at k (length flags.now) (length values.now) t (length text.now) }
    ensures { Wrote (write_cell (col_of c layout.now.ranges.now layout.now.letters.now) (take k (slots_of flags.now values.now)) at (take (slots_by c) (drop k (slots_of flags.now values.now))) (take (texts_by c) (drop t text.now))) result out.old out.new }
{
    match c {
        Column::Number {
            form,
            required,
            range,
        } => {
            let v = values[k];
            let fits = allows(layout.ranges, range, flags, values, k, v);
            put_number(out, at, form, required, fits, flags[k], v)
        }
        Column::Text { width, rule } => put_text(out, at, rule, &text[t..t + width]),
        Column::Letter { first, count } => {
            let set = layout.set(first, count);
            put_letter(out, at, set, &text[t..t + 1])
        }
        Column::Group { number } => { write_group(out, at, group_at(number), flags, values, k) }
        Column::Printed { byte, .. } => {
            fill(out, byte as u8);
            Ok(())
        }
    }
}

// ---- the table

// The columns of a table, written into `out` after its first `start` bytes. Where one is refused, those before it are written.
pub fn put_columns(
    flags: &[u8],
    values: &[i64],
    text: &[u8],
    layout: &Layout<'_>,
    out: &mut [u8],
    start: usize,
) -> Result<(), Refusal>
    requires { Table (columns_in layout.now) start (length out.old) 0 (length flags.now) (length values.now) 0 (length text.now) }
    ensures { WrotePart (write_columns (columns_in layout.now) [] start (slots_of flags.now values.now) text.now) (write_part (columns_in layout.now) [] start (slots_of flags.now values.now) text.now) start result out.old out.new }
{
    let mut at = start;
    let mut k = 0;
    let mut t = 0;
    for row in layout.rows {
        let c = column_in(*row);
        let end = at + width_in(c);
        // stretches of blanks are half of the columns of a line: they are looked for first, and take nothing of the record
        if let Column::Printed { byte, .. } = c {
            fill(&mut out[at..end], byte as u8);
            at = end;
            continue;
        }
        let part = &mut out[at..end];
        write_cell(part, at, c, layout, flags, values, k, text, t)?;
        at = end;
        k += slots_in(c);
        t += texts_in(c);
    }
    Ok(())
}

// A line of its own, over the first bytes of `out`: 11 where `out` is too short; nothing is changed where it is refused.
pub fn write_columns(
    flags: &[u8],
    values: &[i64],
    text: &[u8],
    layout: &Layout<'_>,
    width: usize,
    out: &mut [u8],
) -> Result<(), Refusal>
    requires { (width ≡ widths (columns_in layout.now)) × Table (columns_in layout.now) 0 512 0 (length flags.now) (length values.now) 0 (length text.now) }
    ensures { Wrote (write_line (columns_in layout.now) (slots_of flags.now values.now) text.now (length out.old)) result out.old out.new }
{
    if out.len() < width {
        return Err(Reason::Short.at(0));
    }
    let mut line = [b' '; 512];
    put_columns(flags, values, text, layout, &mut line, 0)?;
    copy(out, &line[..width]);
    Ok(())
}
