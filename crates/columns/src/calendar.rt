// The Gregorian calendar, carried backward over all years (specs/Calendar.antt).
ghost use Rattle.std.specs.Prelude.{◌≡◌, pos};
ghost use Rattle.columns.specs.Calendar.{leap, days_in};
ghost use Rattle.columns.specs.Column.{within, slot_in, last_day};

use super::number::Field;
use super::written::magnitude_of;

// Whether a year is a leap year.
fn is_leap(year: i64) -> bool
    ensures { result ≡ leap year }
{
    let n = magnitude_of(year);
    if n % 100 == 0 {
        return n % 400 == 0;
    }
    n % 4 == 0
}

// The days of a month; 31 where the number is no month's.
fn days_in(year: i64, month: i64) -> i64
    ensures { result ≡ pos (days_in year month) }
{
    match month {
        2 => { if is_leap(year) { 29 } else { 28 } }
        4 | 6 | 9 | 11 => 30,
        _ => 31,
    }
}

// The last day of a month of a year; 31 where one of them is missing.
fn last_day(year: Field, month: Field) -> i64
    ensures { result ≡ pos (last_day (slot_in year) (slot_in month)) }
{
    match (year, month) {
        (Field::Value(y), Field::Value(m)) => days_in(y, m),
        _ => 31,
    }
}

// Whether v is a day of that month: each has 28.
pub fn is_day(year: Field, month: Field, v: i64) -> bool
    ensures { result ≡ within (pos 1) (pos (last_day (slot_in year) (slot_in month))) v }
{
    if v < 29 {
        return 0 < v;
    }
    v <= last_day(year, month)
}
