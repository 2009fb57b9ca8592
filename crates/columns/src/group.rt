// A group of three numbers with marks between them, read and written: the clock time i2:i2:f6.3, the date i4/i2/i2.
ghost use Rattle.std.specs.Prelude.{◌≡◌, ◌&&◌, List, ◌+◌, ◌≤◌, length, get_or, T, pos};
ghost use Rattle.columns.specs.Column.{Slot, missing, given, clock_time, calendar_date, group_width, good_group};
ghost use Rattle.columns.specs.Group.{parts_range, group_range, three_of, group_field, group_bytes, group_holds, put_group};
ghost use Rattle.columns.specs.Number.{form_width, good_form, zero_filled};
ghost use Rattle.columns.specs.Table.{group_at, slot_of, Wrote, placed};

use super::bytes::{blanks, is_blank};
use super::calendar::is_day;
use super::column::in_range;
use super::number::{Field, Form, read_number, width_of};
use super::written::{holds_number, magnitude_of, write_zeros};
use super::{Reason, Refusal};

// What a group holds: nothing, its three numbers, or bytes of no good form.
#[derive(Clone, Copy)]
pub enum Three {
    Missing,
    Given(i64, i64, i64),
    Bad,
}

// A number of a group: its form and the ends of its range.
#[derive(Clone, Copy)]
pub struct Part {
    pub form: Form,
    pub low: i64,
    pub high: i64,
}

// Three numbers, the mark between them, and whether the third is a day of the month and year before it.
#[derive(Clone, Copy)]
pub struct Group {
    pub mark: u8,
    pub dated: bool,
    pub first: Part,
    pub second: Part,
    pub third: Part,
}

fn clock_time() -> Group
    ensures { result ≡ clock_time }
{
    Group {
        mark: b':',
        dated: false,
        first: Part {
            form: Form::Integer(2),
            low: 0,
            high: 23,
        },
        second: Part {
            form: Form::Integer(2),
            low: 0,
            high: 59,
        },
        third: Part {
            form: Form::Decimal(6, 3),
            low: 0,
            high: 59999,
        },
    }
}

fn calendar_date() -> Group
    ensures { result ≡ calendar_date }
{
    Group {
        mark: b'/',
        dated: true,
        first: Part {
            form: Form::Integer(4),
            low: 0,
            high: 9999,
        },
        second: Part {
            form: Form::Integer(2),
            low: 1,
            high: 12,
        },
        third: Part {
            form: Form::Integer(2),
            low: 1,
            high: 31,
        },
    }
}

// A group by its number, the last part of its row.
pub fn group_at(number: usize) -> Group
    ensures { result ≡ group_at number }
{
    if number == 0 {
        clock_time()
    } else {
        calendar_date()
    }
}

// The columns that a group takes.
pub fn group_width(g: Group) -> usize
    requires { T (good_group g) }
    ensures { (result ≡ group_width g) × (result ≤ 64) }
{
    width_of(g.first.form) + 1 + width_of(g.second.form) + 1 + width_of(g.third.form)
}

// All three numbers, or bad form.
fn three_of(a: Field, b: Field, c: Field) -> Three
    ensures { result ≡ three_of a b c }
{
    match (a, b, c) {
        (Field::Value(x), Field::Value(y), Field::Value(z)) => Three::Given(x, y, z),
        _ => Three::Bad,
    }
}

// The group that `s` is.
pub fn read_group(s: &[u8], g: Group) -> Three
    requires { (length s.now ≡ group_width g) × T (good_group g) }
    ensures { result ≡ group_field g s.now }
{
    let one = width_of(g.first.form);
    let two = one + 1 + width_of(g.second.form);
    if is_blank(s) {
        return Three::Missing;
    }
    if s[one] != g.mark || s[two] != g.mark {
        return Three::Bad;
    }
    three_of(
        read_number(&s[..one], g.first.form),
        read_number(&s[one + 1..two], g.second.form),
        read_number(&s[two + 1..], g.third.form),
    )
}

// Three numbers in their ranges.
fn in_parts(g: Group, x: i64, y: i64, z: i64) -> bool
    ensures { (seen : List Slot) → result ≡ parts_range g seen x y z }
{
    let later = in_range(g.second.low, g.second.high, y) & in_range(g.third.low, g.third.high, z);
    in_range(g.first.low, g.first.high, x) & later
}

// The same, and of a date a day that exists.
pub fn in_group(g: Group, x: i64, y: i64, z: i64) -> bool
    ensures { (seen : List Slot) → result ≡ group_range g seen x y z }
{
    if g.dated && in_parts(g, x, y, z) {
        is_day(Field::Value(x), Field::Value(y), z)
    } else {
        in_parts(g, x, y, z)
    }
}

fn holds_group(g: Group, x: i64, y: i64, z: i64) -> bool
    requires { T (good_group g) }
    ensures { result ≡ group_holds g x y z }
{
    let later = holds_number(g.second.form, y) & holds_number(g.third.form, z);
    holds_number(g.first.form, x) & later
}

// A number of a form, filled with zeros, from place `at` on.
fn put_part(out: &mut [u8], at: usize, form: Form, n: u64)
    requires { (at + form_width form ≤ length out.old) × T (good_form form) }
    ensures { out.new ≡ placed at (zero_filled form n) out.old }
{
    let end = at + width_of(form);
    write_zeros(&mut out[at..end], form, n);
}

fn write_parts(out: &mut [u8], g: Group, x: u64, y: u64, z: u64)
    requires { (length out.old ≡ group_width g) × T (good_group g) }
    ensures { out.new ≡ group_bytes g x y z }
{
    let one = width_of(g.first.form);
    let two = one + 1 + width_of(g.second.form);
    put_part(out, 0, g.first.form, x);
    out[one] = g.mark;
    put_part(out, one + 1, g.second.form, y);
    out[two] = g.mark;
    put_part(out, two + 1, g.third.form, z);
}

fn write_three(out: &mut [u8], at: usize, g: Group, x: i64, y: i64, z: i64) -> Result<(), Refusal>
    requires { (length out.old ≡ group_width g) × (T (good_group g) × (at ≤ 4096)) }
    ensures { (seen : List Slot) → Wrote (put_group g seen at (given x) (given y) (given z)) result out.old out.new }
{
    if !holds_group(g, x, y, z) {
        return Err(Reason::Wide.at(at + 1));
    }
    if !in_group(g, x, y, z) {
        return Err(Reason::Range.at(at + 1));
    }
    write_parts(out, g, magnitude_of(x), magnitude_of(y), magnitude_of(z));
    Ok(())
}

// A group whose first number is missing: the others are missing too.
fn write_none(
    out: &mut [u8],
    at: usize,
    g: Group,
    fb: u8,
    y: i64,
    fc: u8,
    z: i64,
) -> Result<(), Refusal>
    requires { (length out.old ≡ group_width g) × (at ≤ 4096) }
    ensures { (seen : List Slot) → Wrote (put_group g seen at missing (slot_of fb y) (slot_of fc z)) result out.old out.new }
{
    if fb != 0 || fc != 0 {
        return Err(Reason::Required.at(at + 1));
    }
    blanks(out);
    Ok(())
}

// Three numbers, each with its flag: all missing, or none.
fn write_flagged(
    out: &mut [u8],
    at: usize,
    g: Group,
    fa: u8,
    x: i64,
    fb: u8,
    y: i64,
    fc: u8,
    z: i64,
) -> Result<(), Refusal>
    requires { (length out.old ≡ group_width g) × (T (good_group g) × (at ≤ 4096)) }
    ensures { (seen : List Slot) → Wrote (put_group g seen at (slot_of fa x) (slot_of fb y) (slot_of fc z)) result out.old out.new }
{
    if fa == 0 {
        return write_none(out, at, g, fb, y, fc, z);
    }
    if fb == 0 || fc == 0 {
        return Err(Reason::Required.at(at + 1));
    }
    write_three(out, at, g, x, y, z)
}

// The group of the record's three numbers from place k on, after the first `at` columns.
pub fn write_group(
    out: &mut [u8],
    at: usize,
    g: Group,
    flags: &[u8],
    values: &[i64],
    k: usize,
) -> Result<(), Refusal>
    requires { (length out.old ≡ group_width g) × (T (good_group g) × ((at ≤ 4096) × ((k + 3 ≤ length flags.now) × (k + 3 ≤ length values.now)))) }
    ensures { (seen : List Slot) → Wrote (put_group g seen at (slot_of (get_or flags.now k 0) (get_or values.now k (pos 0))) (slot_of (get_or flags.now (k + 1) 0) (get_or values.now (k + 1) (pos 0))) (slot_of (get_or flags.now (k + 2) 0) (get_or values.now (k + 2) (pos 0)))) result out.old out.new }
{
    write_flagged(
        out,
        at,
        g,
        flags[k],
        values[k],
        flags[k + 1],
        values[k + 1],
        flags[k + 2],
        values[k + 2],
    )
}
