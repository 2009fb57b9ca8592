// A column of a table, one number a column, and the range step.
ghost use Rattle.std.specs.Prelude.{◌≡◌, List, ◌+◌, ◌-◌, ◌^◌, ◌≤◌, ◌<◌, length, take, drop, get_or, pos};
ghost use Rattle.std.proofs.Math.Seq.{slice};
ghost use Rattle.columns.specs.Column.{Slot, slot_in, within, last_day_after, allowed};
ghost use Rattle.columns.specs.Reading.{rule_refuses, rule_number};
ghost use Rattle.columns.specs.Table.{column_by, column_in, Within, decimals_by, range_at, rule_at, width_by, slots_by, texts_by, slot_of, slots_of};

use super::Reason;
use super::bytes::is_blank;
use super::calendar::is_day;
use super::group::{group_at, group_width};
use super::number::{Field, Form, width_of};

// A row of a table is a sum: a kind; places, the decimals of a number or the place of a set's first letter; widths, the columns;
// REQUIRED for a number that must be there; and last the range of a number, the rule of a text, the count of a set's letters,
// the number of a group or the code of a printed byte.
pub const INTEGER: u32 = 0;

pub const DECIMAL: u32 = 16777216;

pub const TEXT: u32 = 33554432;

pub const LETTER: u32 = 50331648;

pub const GROUP: u32 = 67108864;

// A printed byte: its code is the last part of the row. Of a stretch of blanks it is 32.
pub const PRINTED: u32 = 83886080;

pub const BLANK: u32 = PRINTED + 32;

pub const PLACES: u32 = 32768;

pub const WIDTH: u32 = 256;

pub const REQUIRED: u32 = 128;

// The ranges that every table has; a span is named by the place of its first end among the table's ranges, from 3 on.
pub const AS_HELD: u32 = 0;

pub const NOT_NEGATIVE: u32 = 1;

pub const DAY: u32 = 2;

// The rules of text.
pub const ANY_TEXT: u32 = 0;

pub const NO_BRACKETS: u32 = 1;

pub const NOT_BLANK_FIRST: u32 = 2;

pub const NOT_ALL_BLANK: u32 = 3;

pub const BLANK_OR_FILLED: u32 = 4;

// The groups.
pub const CLOCK: u32 = 0;

pub const DATE: u32 = 1;

// What a text may be.
#[derive(Clone, Copy, PartialEq, Eq, Debug)]
pub enum Rule {
    AnyText,
    NoBrackets,
    NotBlankFirst,
    NotAllBlank,
    BlankOrFilled,
}

// A column of a table, the parts of its row: a number, with the place of its range among the table's; text; a letter of a set, which is
// `count` letters of the table from place `first` on; a group by its number; a printed byte.
#[derive(Clone, Copy)]
pub enum Column {
    Number {
        form: Form,
        required: bool,
        range: usize,
    },
    Text {
        width: usize,
        rule: Rule,
    },
    Letter {
        first: usize,
        count: usize,
    },
    Group {
        number: usize,
    },
    Printed {
        width: usize,
        byte: usize,
    },
}

// A table: its rows, and the ranges and letters that they name.
#[derive(Clone, Copy)]
pub struct Layout<'a> {
    pub rows: &'a [u32],
    pub ranges: &'a [i64],
    pub letters: &'a [u8],
}

impl<'a> Layout<'a> {
    // The table of the rows from place `from` up to place `to`.
    pub fn part(&self, from: usize, to: usize) -> Layout<'a>
        requires { (from ≤ to) × (to ≤ length self.now.rows.now) }
        ensures { (result.rows.now ≡ take (to - from) (drop from self.now.rows.now)) × (result.ranges.now ≡ self.now.ranges.now) × (result.letters.now ≡ self.now.letters.now) }
    {
        Layout {
            rows: &self.rows[from..to],
            ranges: self.ranges,
            letters: self.letters,
        }
    }
}

impl<'a> Layout<'a> {
    // `count` letters from place `first` on, as far as the table has them.
    pub fn set(&self, first: usize, count: usize) -> &'a [u8]
        requires { first + count < 2 ^ 64 }
        ensures { result.now ≡ slice first (first + count) self.now.letters.now }
    {
        let end = self.letters.len().min(first + count);
        &self.letters[first.min(end)..end]
    }

    // The same of any place and count.
    pub fn any_set(&self, first: usize, count: usize) -> &'a [u8]
        ensures { result.now ≡ slice first (first + count) self.now.letters.now }
    {
        let end = self.letters.len().min(first.saturating_add(count));
        let start = first.min(end);
        &self.letters[start..end]
    }
}

// A rule by its number, of ANY_TEXT to BLANK_OR_FILLED; from there on every number is the last.
pub fn rule_at(number: usize) -> Rule
    ensures { result ≡ rule_at number }
{
    match number {
        0 => Rule::AnyText,
        1 => Rule::NoBrackets,
        2 => Rule::NotBlankFirst,
        3 => Rule::NotAllBlank,
        _ => Rule::BlankOrFilled,
    }
}

impl Column {
    // The column of a row's parts, whatever they are.
    #[inline(always)]
    pub fn of(kind: u32, place: usize, width: usize, required: bool, last: usize) -> Column
        ensures { result ≡ column_by kind place width required last }
    {
        match kind {
            0 => Column::Number {
                form: Form::Integer(width),
                required,
                range: last,
            },
            1 => Column::Number {
                form: Form::Decimal(width, place),
                required,
                range: last,
            },
            2 => Column::Text {
                width,
                rule: rule_at(last),
            },
            3 => Column::Letter {
                first: place,
                count: last,
            },
            4 => Column::Group { number: last },
            _ => Column::Printed { width, byte: last },
        }
    }
}

// The column of a row.
#[inline(always)]
pub fn column_in(row: u32) -> Column
    ensures { (result ≡ column_in row) × Within 512 128 result × (decimals_by result < 512) }
{
    let place = (row / PLACES % 512) as usize;
    let width = (row / WIDTH % 128) as usize;
    let last = (row % 128) as usize;
    Column::of(row / DECIMAL, place, width, REQUIRED <= row % 256, last)
}

// The columns of the line that it takes.
#[inline(always)]
pub fn width_in(c: Column) -> usize
    ensures { result ≡ width_by c }
{
    match c {
        Column::Number { form, .. } => width_of(form),
        Column::Text { width, .. } | Column::Printed { width, .. } => width,
        Column::Letter { .. } => 1,
        Column::Group { number } => group_width(group_at(number)),
    }
}

// The numbers of the record that it takes.
pub fn slots_in(c: Column) -> usize
    ensures { result ≡ slots_by c }
{
    match c {
        Column::Number { .. } => 1,
        Column::Group { .. } => 3,
        _ => 0,
    }
}

// The text bytes of the record that it takes.
pub fn texts_in(c: Column) -> usize
    ensures { result ≡ texts_by c }
{
    match c {
        Column::Text { width, .. } => width,
        Column::Letter { .. } => 1,
        _ => 0,
    }
}

impl Rule {
    // Whether it refuses a text's bytes.
    #[inline(always)]
    pub fn refuses(self, s: &[u8]) -> bool
        requires { 1 ≤ length s.now }
        ensures { result ≡ rule_refuses self s.now }
    {
        // most text: a comparison, where the match below may be a jump through a table
        if matches!(self, Rule::AnyText | Rule::NoBrackets) {
            return false;
        }
        match self {
            Rule::AnyText | Rule::NoBrackets => false,
            Rule::NotBlankFirst => s[0] == b' ',
            Rule::NotAllBlank => is_blank(s),
            Rule::BlankOrFilled => s[0] == b' ' && !is_blank(s),
        }
    }
}

// Whether the rule of a number refuses a text's bytes.
pub fn refuses_text(s: &[u8], rule: usize) -> bool
    requires { 1 ≤ length s.now }
    ensures { result ≡ rule_refuses (rule_at rule) s.now }
{
    rule_at(rule).refuses(s)
}

// Why a rule refuses a text.
pub fn rule_reason(rule: Rule) -> Reason
    ensures { result ≡ rule_number rule }
{
    if rule == Rule::BlankOrFilled {
        Reason::Form
    } else {
        Reason::Required
    }
}

#[inline(always)]
pub fn in_range(low: i64, high: i64, v: i64) -> bool
    ensures { result ≡ within low high v }
{
    low <= v && v <= high
}

// An end of a range: 0 where the table has none there.
#[inline(always)]
fn end_at(ranges: &[i64], i: usize) -> i64
    ensures { result ≡ get_or ranges.now i (pos 0) }
{
    ranges.get(i).copied().unwrap_or(0)
}

// Whether a range that is no day may hold v, whatever numbers came before it.
#[inline(always)]
pub fn in_range_at(ranges: &[i64], k: usize, v: i64) -> bool
    requires { (k < 256) × (k ≡ 2 → ⊥) }
    ensures { (seen : List Slot) → result ≡ allowed (range_at ranges.now k) seen v }
{
    match k {
        0 => true,
        1 => 0 <= v,
        _ => in_range(end_at(ranges, k), end_at(ranges, k + 1), v),
    }
}

// A range by a number below 256, and the ranges among which that names what k names among these.
pub fn near_range(ranges: &[i64], k: usize) -> (usize, &[i64])
    ensures low { result.0 < 256 }
    ensures same { range_at result.1.now result.0 ≡ range_at ranges.now k }
{
    if k < 256 {
        return (k, ranges);
    }
    (3, &ranges[ranges.len().min(k - 3)..])
}

// A number of the record.
fn number_at(flags: &[u8], values: &[i64], i: usize) -> Field
    requires { (i < length flags.now) × (i < length values.now) }
    ensures { slot_in result ≡ slot_of (get_or flags.now i 0) (get_or values.now i (pos 0)) }
{
    if flags[i] == 0 {
        Field::Missing
    } else {
        Field::Value(values[i])
    }
}

// Whether v is a day after the first n numbers of the record.
pub fn day_after(flags: &[u8], values: &[i64], n: usize, v: i64) -> bool
    requires { (length flags.now ≡ length values.now) × (n ≤ length flags.now) }
    ensures { result ≡ within (pos 1) (pos (last_day_after (take n (slots_of flags.now values.now)))) v }
{
    if n < 2 {
        return in_range(1, 31, v);
    }
    is_day(
        number_at(flags, values, n - 2),
        number_at(flags, values, n - 1),
        v,
    )
}

// The range step: whether a column may hold v, after the first n numbers of the record.
pub fn allows(ranges: &[i64], k: usize, flags: &[u8], values: &[i64], n: usize, v: i64) -> bool
    requires { (k < 256) × ((length flags.now ≡ length values.now) × (n ≤ length flags.now)) }
    ensures { result ≡ allowed (range_at ranges.now k) (take n (slots_of flags.now values.now)) v }
{
    if k == 2 {
        return day_after(flags, values, n, v);
    }
    in_range_at(ranges, k, v)
}

#[cfg(test)]
mod tests {
    use super::*;

    #[test]
    fn ranges_anywhere(rt: HostRuntime) {
        let mut ranges = [0; 302];
        ranges[300] = 5;
        ranges[301] = 7;
        let (k, near) = near_range(&ranges, 300);
        assert_eq!(rt; k, 3);
        assert!(rt; near == [0, 0, 0, 5, 7].as_slice());
        let (k, near) = near_range(&ranges, usize::MAX);
        assert_eq!(rt; k, 3);
        assert!(rt; near.is_empty());
        let (k, near) = near_range(&ranges, 2);
        assert_eq!(rt; k, 2);
        assert_eq!(rt; near.len(), 302);
    }

    #[test]
    fn sets_of_any_place(rt: HostRuntime) {
        let layout = Layout {
            rows: &[],
            ranges: &[],
            letters: b"abc",
        };
        assert!(rt; layout.any_set(1, usize::MAX) == b"bc".as_slice());
        assert!(rt; layout.any_set(1, 1) == b"b".as_slice());
        assert!(rt; layout.any_set(usize::MAX, 1).is_empty());
    }
}
