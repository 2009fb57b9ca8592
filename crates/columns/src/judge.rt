// A column of a line judged by its row in a table of integers and text, with nothing stored.
ghost use Rattle.std.specs.Prelude.{◌≡◌, List, [], ℕ, ◌+◌, ◌≤◌, ◌<◌, length, T, pos};
ghost use Rattle.std.proofs.Math.Seq.{slice};
ghost use Rattle.columns.specs.Answer.{is_ok, ok};
ghost use Rattle.columns.specs.Column.{Slot, within, last_day_after, allowed, good_col};
ghost use Rattle.columns.specs.Reading.{judge, judge_text};
ghost use Rattle.columns.specs.Table.{Within, range_at, col_of, width_by};
ghost use Rattle.columns.specs.Judge.{simple_col, is_day, last_day_before, Judged};

use super::calendar::is_day;
use super::column::{Column, Rule, in_range_at, near_range};
use super::number::{Field, Form, read_any_int, read_int};

// Text: not where its rule refuses it.
#[inline(always)]
fn text_ok(s: &[u8], rule: Rule) -> bool
    requires { 1 ≤ length s.now }
    ensures { (at : ℕ) → result ≡ is_ok (judge_text rule at s.now (ok s.now)) }
{
    !rule.refuses(s)
}

// Whether v is a day of the month before place `at`, after its year: i2 after i4. Only a day that some month lacks looks back.
fn day_before(line: &[u8], at: usize, v: i64) -> bool
    requires { (6 ≤ at) × (at ≤ length line.now) }
    ensures { result ≡ within (pos 1) (pos (last_day_before line.now at)) v }
{
    if v < 29 {
        return 0 < v;
    }
    let year = read_any_int(&line[at - 6..at - 2]);
    let month = read_any_int(&line[at - 2..at]);
    is_day(year, month, v)
}

// A number's column from place `at` on: not where it is required and blank, of bad form or out of its range.
#[inline(always)]
fn number_ok(
    field: Field,
    line: &[u8],
    at: usize,
    required: bool,
    range: usize,
    ranges: &[i64],
) -> bool
    requires { (at ≤ length line.now) × (range ≡ 2 → 6 ≤ at) × (range < 256) }
    ensures { (seen : List Slot) (k : ℕ) → (range ≡ 2 → last_day_after seen ≡ last_day_before line.now at) → result ≡ is_ok (judge required (allowed (range_at ranges.now range) seen) k field) }
{
    match field {
        Field::Missing => !required,
        Field::Bad => false,
        Field::Value(v) if range == 2 => day_before(line, at, v),
        Field::Value(v) => in_range_at(ranges, range, v),
    }
}

// Whether a column, an integer or text, is accepted after the first `at` bytes.
#[inline(always)]
pub fn cell_ok_within(line: &[u8], at: usize, c: Column, ranges: &[i64]) -> bool
    requires { Within 65536 256 c × T (good_col (col_of c ranges.now [])) × (T (simple_col (col_of c ranges.now [])) × ((T (is_day (col_of c ranges.now [])) → 6 ≤ at) × (at + width_by c ≤ length line.now))) }
    ensures { Judged (col_of c ranges.now []) (slice at (at + width_by c) line.now) (last_day_before line.now at) result }
{
    match c {
        Column::Number {
            form: Form::Integer(width),
            required,
            range,
        } => {
            let field = read_int(&line[at..at + width]);
            number_ok(field, line, at, required, range, ranges)
        }
        Column::Text { width, rule } => text_ok(&line[at..at + width], rule),
        _ => false,
    }
}

// The same of a column whose range stands anywhere.
pub fn cell_ok(line: &[u8], at: usize, c: Column, ranges: &[i64]) -> bool
    requires { T (good_col (col_of c ranges.now [])) × (T (simple_col (col_of c ranges.now [])) × ((T (is_day (col_of c ranges.now [])) → 6 ≤ at) × (at + width_by c ≤ length line.now))) }
    ensures { Judged (col_of c ranges.now []) (slice at (at + width_by c) line.now) (last_day_before line.now at) result }
{
    match c {
        Column::Number {
            form,
            required,
            range,
        } => {
            let (range, ranges) = near_range(ranges, range);
            let near = Column::Number {
                form,
                required,
                range,
            };
            cell_ok_within(line, at, near, ranges)
        }
        Column::Text { .. } => cell_ok_within(line, at, c, ranges),
        _ => false,
    }
}

#[cfg(test)]
mod tests {
    use super::*;

    #[test]
    fn judged_by_any_range(rt: HostRuntime) {
        let mut ranges = [0; 302];
        ranges[300] = 5;
        ranges[301] = 7;
        let number = Column::Number {
            form: Form::Integer(2),
            required: true,
            range: 300,
        };
        assert!(rt; cell_ok(b"20261206", 6, number, &ranges));
        assert!(rt; !cell_ok(b"20261208", 6, number, &ranges));
        let text = Column::Text {
            width: 2,
            rule: Rule::NotBlankFirst,
        };
        assert!(rt; cell_ok(b"ab", 0, text, &ranges));
        assert!(rt; !cell_ok(b" b", 0, text, &ranges));
    }
}
