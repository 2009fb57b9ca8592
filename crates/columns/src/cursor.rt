// The cursor: it reads one column field and is handed back with the value.
ghost use Rattle.std.specs.Prelude.{◌≡◌, List, [], ℕ, ◌+◌, ◌^◌, ◌≤◌, ◌<◌, length, take, T};
ghost use Rattle.std.proofs.Math.Seq.{slice};
ghost use Rattle.columns.specs.Number.{int_field, dec_field, field_of, form_width, good_form};
ghost use Rattle.columns.specs.Column.{Slot, allowed, text, letter, printed, width, group_width, good_group};
ghost use Rattle.columns.specs.Group.{group_field, judge_group};
ghost use Rattle.columns.specs.Reading.{judge, read_cell};
ghost use Rattle.columns.specs.Table.{Within, range_at, rule_at, col_of, width_by, slots_of, placed};
ghost use Rattle.columns.specs.Cell.{cell_answer, Found, Readable};

use super::bytes::{copy_at, has, skip};
use super::column::{Column, Layout, Rule, allows, near_range, rule_at, rule_reason};
use super::group::{Group, Three, group_at, group_width, in_group, read_group};
use super::number::{Field, Form, read_dec, read_int};
use super::{Reason, Refusal};

// How many columns of the line are done.
#[derive(Clone, Copy)]
pub struct Cursor {
    pub at: usize,
}

// What a column holds: a number or none, a group that is missing or its three numbers, its own bytes (text or a letter), nothing
// (printed bytes).
#[derive(Clone, Copy)]
pub enum Cell {
    Number(Option<i64>),
    NoThree,
    Three(i64, i64, i64),
    Chars,
    Gap,
}

// What was read, and the cursor behind it.
#[derive(Clone, Copy)]
pub struct Read<T> {
    pub value: T,
    pub next: Cursor,
}

impl<T: Drop> Read<T> {
    // Another value, and the same cursor.
    fn with<U>(self, value: U) -> Read<U>
        ensures { (result.value ≡ value) × (result.next ≡ self.next) }
    {
        Read {
            value,
            next: self.next,
        }
    }
}

// A number's column after the first k numbers of the record: required and blank 5, form 6, range 7.
fn judged(
    field: Field,
    at: usize,
    required: bool,
    range: usize,
    ranges: &[i64],
    flags: &[u8],
    values: &[i64],
    k: usize,
) -> Result<Cell, Refusal>
    requires { (at ≤ 4096) × ((range < 256) × ((length flags.now ≡ length values.now) × (k ≤ length flags.now))) }
    ensures { (f : List ℕ) → cell_answer result f ≡ judge required (allowed (range_at ranges.now range) (take k (slots_of flags.now values.now))) at field }
{
    match field {
        Field::Missing if required => Err(Reason::Required.at(at + 1)),
        Field::Missing => Ok(Cell::Number(None)),
        Field::Bad => Err(Reason::Form.at(at + 1)),
        Field::Value(v) if allows(ranges, range, flags, values, k, v) => Ok(Cell::Number(Some(v))),
        Field::Value(_) => Err(Reason::Range.at(at + 1)),
    }
}

// A group's column: form 6, ranges 7.
fn grouped(three: Three, at: usize, g: Group) -> Result<Cell, Refusal>
    requires { at ≤ 4096 }
    ensures { (seen : List Slot) (f : List ℕ) → cell_answer result f ≡ judge_group g seen at three }
{
    match three {
        Three::Missing => Ok(Cell::NoThree),
        Three::Bad => Err(Reason::Form.at(at + 1)),
        Three::Given(x, y, z) if in_group(g, x, y, z) => Ok(Cell::Three(x, y, z)),
        Three::Given(_, _, _) => Err(Reason::Range.at(at + 1)),
    }
}

impl Cursor {
    // A value, and the cursor behind its columns.
    fn past<T>(self, width: usize, value: T) -> Read<T>
        requires { self.at + width < 2 ^ 64 }
        ensures { (result.value ≡ value) × (result.next.at ≡ self.at + width) }
    {
        Read {
            value,
            next: Cursor {
                at: self.at + width,
            },
        }
    }

    // The bytes of a column.
    fn field(self, line: &[u8], width: usize) -> &[u8]
        requires { self.at + width ≤ length line.now }
        ensures { result.now ≡ slice self.at (self.at + width) line.now }
    {
        let end = self.at + width;
        &line[self.at..end]
    }

    // An integer field.
    pub fn integer(self, line: &[u8], width: usize) -> Read<Field>
        requires { (self.at + width ≤ length line.now) × (width ≤ 18) }
        ensures { (result.value ≡ int_field (slice self.at (self.at + width) line.now)) × (result.next.at ≡ self.at + width) }
    {
        self.past(width, read_int(self.field(line, width)))
    }

    // A decimal field.
    pub fn decimal(self, line: &[u8], width: usize, decimals: usize) -> Read<Field>
        requires { (self.at + width ≤ length line.now) × ((decimals < width) × (width ≤ 18)) }
        ensures { (result.value ≡ dec_field decimals (slice self.at (self.at + width) line.now)) × (result.next.at ≡ self.at + width) }
    {
        self.past(width, read_dec(self.field(line, width), decimals))
    }

    // A number of a form.
    fn number(self, line: &[u8], form: Form) -> Read<Field>
        requires { (self.at + form_width form ≤ length line.now) × T (good_form form) }
        ensures { (result.value ≡ field_of form (slice self.at (self.at + form_width form) line.now)) × (result.next.at ≡ self.at + form_width form) }
    {
        match form {
            Form::Integer(width) => self.integer(line, width),
            Form::Decimal(width, decimals) => self.decimal(line, width, decimals),
        }
    }

    // A group.
    pub fn group(self, line: &[u8], g: Group) -> Read<Three>
        requires { (self.at + group_width g ≤ length line.now) × T (good_group g) }
        ensures { (result.value ≡ group_field g (slice self.at (self.at + group_width g) line.now)) × (result.next.at ≡ self.at + group_width g) }
    {
        let width = group_width(g);
        self.past(width, read_group(self.field(line, width), g))
    }

    // Text with its rule.
    pub fn ruled(self, line: &[u8], width: usize, rule: Rule) -> Read<Result<Cell, Refusal>>
        requires { (self.at + width ≤ length line.now) × ((1 ≤ width) × (self.at ≤ 4096)) }
        ensures { (seen : List Slot) → Found (read_cell (text width rule) seen self.at (slice self.at (self.at + width) line.now)) result self.at width (slice self.at (self.at + width) line.now) }
    {
        if rule.refuses(self.field(line, width)) {
            return self.past(width, Err(rule_reason(rule).at(self.at + 1)));
        }
        self.past(width, Ok(Cell::Chars))
    }

    // Text with the rule of a number.
    pub fn text(self, line: &[u8], width: usize, rule: usize) -> Read<Result<Cell, Refusal>>
        requires { (self.at + width ≤ length line.now) × ((1 ≤ width) × (self.at ≤ 4096)) }
        ensures { (seen : List Slot) → Found (read_cell (text width (rule_at rule)) seen self.at (slice self.at (self.at + width) line.now)) result self.at width (slice self.at (self.at + width) line.now) }
    {
        self.ruled(line, width, rule_at(rule))
    }

    // Text of any length, as it stands, into `out` from place `to` on.
    pub fn stretch(self, line: &[u8], width: usize, out: &mut [u8], to: usize) -> Cursor
        requires { (self.at + width ≤ length line.now) × (to + width ≤ length out.old) }
        ensures { (result.at ≡ self.at + width) × (out.new ≡ placed to (slice self.at (self.at + width) line.now) out.old) }
    {
        copy_at(out, to, self.field(line, width));
        Cursor {
            at: self.at + width,
        }
    }

    // A letter of a set.
    pub fn letter(self, line: &[u8], set: &[u8]) -> Read<Result<Cell, Refusal>>
        requires { (self.at + 1 ≤ length line.now) × (self.at ≤ 4096) }
        ensures { (seen : List Slot) → Found (read_cell (letter set.now) seen self.at (slice self.at (self.at + 1) line.now)) result self.at 1 (slice self.at (self.at + 1) line.now) }
    {
        if has(set, line[self.at]) {
            return self.past(1, Ok(Cell::Chars));
        }
        self.past(1, Err(Reason::Letter.at(self.at + 1)))
    }

    // Columns that all hold the printed byte `b`: any other is 4 at its own column.
    pub fn printed(self, line: &[u8], width: usize, b: u8) -> Read<Result<Cell, Refusal>>
        requires { (self.at + width ≤ length line.now) × (length line.now ≤ 4096) }
        ensures { (seen : List Slot) → Found (read_cell (printed b width) seen self.at (slice self.at (self.at + width) line.now)) result self.at width (slice self.at (self.at + width) line.now) }
    {
        let field = self.field(line, width);
        let rest = skip(field, b);
        if rest.is_empty() {
            return self.past(width, Ok(Cell::Gap));
        }
        let column = self.at + 1 + (width - rest.len());
        self.past(width, Err(Reason::Separator.at(column)))
    }

    // Any column of a table, after the first k numbers of the record.
    pub fn cell_within(
        self,
        line: &[u8],
        c: Column,
        layout: &Layout<'_>,
        flags: &[u8],
        values: &[i64],
        k: usize,
    ) -> Read<Result<Cell, Refusal>>
        requires { Within 65536 256 c × Readable (col_of c layout.now.ranges.now layout.now.letters.now) self.at (length line.now) k (length flags.now) (length values.now) }
        ensures { Found (read_cell (col_of c layout.now.ranges.now layout.now.letters.now) (take k (slots_of flags.now values.now)) self.at (slice self.at (self.at + width_by c) line.now)) result self.at (width_by c) (slice self.at (self.at + width_by c) line.now) }
    {
        match c {
            Column::Number {
                form,
                required,
                range,
            } => {
                let read = self.number(line, form);
                read.with(judged(
                    read.value,
                    self.at,
                    required,
                    range,
                    layout.ranges,
                    flags,
                    values,
                    k,
                ))
            }
            Column::Text { width, rule } => self.ruled(line, width, rule),
            Column::Letter { first, count } => {
                let set = layout.set(first, count);
                self.letter(line, set)
            }
            Column::Group { number } => {
                let g = group_at(number);
                let read = self.group(line, g);
                read.with(grouped(read.value, self.at, g))
            }
            Column::Printed { width, byte } => self.printed(line, width, byte as u8),
        }
    }

    // The same of a column of any parts.
    pub fn cell(
        self,
        line: &[u8],
        c: Column,
        layout: &Layout<'_>,
        flags: &[u8],
        values: &[i64],
        k: usize,
    ) -> Read<Result<Cell, Refusal>>
        requires { Readable (col_of c layout.now.ranges.now layout.now.letters.now) self.at (length line.now) k (length flags.now) (length values.now) }
        ensures { Found (read_cell (col_of c layout.now.ranges.now layout.now.letters.now) (take k (slots_of flags.now values.now)) self.at (slice self.at (self.at + width_by c) line.now)) result self.at (width_by c) (slice self.at (self.at + width_by c) line.now) }
    {
        match c {
            Column::Number {
                form,
                required,
                range,
            } => {
                let (range, ranges) = near_range(layout.ranges, range);
                let near = Layout { ranges, ..*layout };
                let column = Column::Number {
                    form,
                    required,
                    range,
                };
                self.cell_within(line, column, &near, flags, values, k)
            }
            Column::Letter { first, count } => {
                let set = layout.any_set(first, count);
                self.letter(line, set)
            }
            Column::Group { number } => {
                let column = Column::Group {
                    number: number.min(1),
                };
                self.cell_within(line, column, layout, flags, values, k)
            }
            _ => self.cell_within(line, c, layout, flags, values, k),
        }
    }
}

#[cfg(test)]
mod tests {
    use super::*;

    // What the first column of a line holds.
    fn first(line: &[u8], c: Column, layout: &Layout<'_>) -> Result<Cell, Refusal>
        requires { Readable (col_of c layout.now.ranges.now layout.now.letters.now) 0 (length line.now) 0 0 0 }
    {
        Cursor { at: 0 }.cell(line, c, layout, &[], &[], 0).value
    }

    #[test]
    fn columns_of_any_parts(rt: HostRuntime) {
        let mut ranges = [0; 302];
        ranges[300] = 5;
        ranges[301] = 7;
        let layout = Layout {
            rows: &[],
            ranges: &ranges,
            letters: b"abc",
        };
        let number = Column::Number {
            form: Form::Integer(2),
            required: true,
            range: 300,
        };
        assert!(rt; matches!(first(b" 6", number, &layout), Ok(Cell::Number(Some(6)))));
        assert!(rt; matches!(first(b" 8", number, &layout), Err(e) if e == Reason::Range.at(1)));
        let letter = Column::Letter {
            first: 1,
            count: usize::MAX,
        };
        assert!(rt; matches!(first(b"c", letter, &layout), Ok(Cell::Chars)));
        assert!(rt; matches!(first(b"a", letter, &layout), Err(e) if e == Reason::Letter.at(1)));
        let group = Column::Group { number: 1000 };
        assert!(rt;
            matches!(
                first(b"2026/12/01", group, &layout),
                Ok(Cell::Three(2026, 12, 1))
            )
        );
        let printed = Column::Printed { width: 2, byte: 45 };
        assert!(rt; matches!(first(b"--", printed, &layout), Ok(Cell::Gap)));
        let text = Column::Text {
            width: 2,
            rule: Rule::NotBlankFirst,
        };
        assert!(rt; matches!(first(b" a", text, &layout), Err(e) if e == Reason::Required.at(1)));
    }
}
