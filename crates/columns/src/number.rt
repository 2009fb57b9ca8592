// Number fields iW and fW.D, read.
ghost use Rattle.std.specs.Prelude.{◌≡◌, ◌+◌, ◌-◌, ◌*◌, ◌^◌, ◌≤◌, ◌<◌, length, T, false};
ghost use Rattle.columns.specs.Number.{digits, number, scan, fraction, magnitude, signed, with_sign, value, int_field, dec_field, plain_scan, Quick, form_width, good_form, field_of};

use super::bytes::{is_blank, is_digit, trim};

// A sign and a number, before minus zero becomes zero.
#[derive(Clone, Copy)]
pub enum Scan {
    Blank,
    Number(bool, u64),
    Malformed,
}

// What a number field holds.
#[derive(Clone, Copy)]
pub enum Field {
    Missing,
    Value(i64),
    Bad,
}

// The form of a number: iW, or fW.D.
#[derive(Clone, Copy)]
pub enum Form {
    Integer(usize),
    Decimal(usize, usize),
}

// Blanks and then digits: nothing but blanks, the number, or anything else.
#[derive(Clone, Copy)]
pub enum Plain {
    Blank,
    Number(u64),
    Other,
}

// The number of digits after the number `before`; none where another byte is among them.
pub fn read_digits(s: &[u8], before: u64) -> Option<u64>
    requires { (before + 1) * 10 ^ length s.now ≤ 10 ^ 18 }
    ensures { result ≡ digits before s.now }
{
    let mut n = before;
    for b in s {
        if !is_digit(*b) {
            return None;
        }
        n = n * 10 + u64::from(*b - b'0');
    }
    Some(n)
}

// The number with its sign.
pub fn with_sign(minus: bool, n: u64) -> i64
    requires { n < 10 ^ 18 }
    ensures { result ≡ signed minus n }
{
    if minus { 0 - (n as i64) } else { n as i64 }
}

// One or more digits, and their sign.
fn scan_number(s: &[u8], minus: bool) -> Scan
    requires { length s.now ≤ 18 }
    ensures { result ≡ with_sign minus (number s.now) }
{
    if s.is_empty() {
        return Scan::Malformed;
    }
    match read_digits(s, 0) {
        Some(n) => Scan::Number(minus, n),
        None => Scan::Malformed,
    }
}

// Blanks, an optional minus, then digits.
fn scan_whole(s: &[u8]) -> Scan
    requires { length s.now ≤ 18 }
    ensures { result ≡ scan s.now }
{
    let rest = trim(s);
    match rest.split_first() {
        None => Scan::Blank,
        Some((b'-', digits)) => scan_number(digits, true),
        Some(_) => scan_number(rest, false),
    }
}

// The point and the digits after it, after the whole part.
fn scan_fraction(s: &[u8], whole: Scan) -> Scan
    requires { (1 ≤ length s.now) × ((magnitude whole + 1) * 10 ^ (length s.now - 1) ≤ 10 ^ 18) }
    ensures { result ≡ fraction whole s.now }
{
    match whole {
        Scan::Blank if is_blank(s) => Scan::Blank,
        Scan::Number(minus, n) if s[0] == b'.' => match read_digits(&s[1..], n) {
            Some(m) => Scan::Number(minus, m),
            None => Scan::Malformed,
        },
        _ => Scan::Malformed,
    }
}

fn field_of(s: Scan) -> Field
    requires { magnitude s < 10 ^ 18 }
    ensures { result ≡ value s }
{
    match s {
        Scan::Blank => Field::Missing,
        Scan::Number(minus, n) => Field::Value(with_sign(minus, n)),
        Scan::Malformed => Field::Bad,
    }
}

// Blanks and then digits, in one loop: of a constant width it is unrolled.
#[inline(always)]
pub fn read_plain(s: &[u8]) -> Plain
    requires { length s.now ≤ 18 }
    ensures { result ≡ plain_scan false 0 s.now }
{
    let mut n = 0u64;
    let mut any = false;
    for b in s {
        if is_digit(*b) {
            n = n * 10 + u64::from(*b - b'0');
            any = true;
        } else if any || *b != b' ' {
            return Plain::Other;
        }
    }
    if any { Plain::Number(n) } else { Plain::Blank }
}

// The usual widths as constants; other widths go the general way.
#[inline(always)]
fn quick(s: &[u8]) -> Plain
    ensures { Quick result s.now }
{
    match s.len() {
        2 => read_plain(&s[..2]),
        3 => read_plain(&s[..3]),
        4 => read_plain(&s[..4]),
        _ => Plain::Other,
    }
}

// The integer field that `s` is, whatever it holds. Kept out of its callers: laid into `read_int`, it makes a jump by a table of the widths there.
#[inline(never)]
pub fn read_any_int(s: &[u8]) -> Field
    requires { length s.now ≤ 18 }
    ensures { result ≡ int_field s.now }
{
    field_of(scan_whole(s))
}

// The same, the usual case first.
#[inline(always)]
pub fn read_int(s: &[u8]) -> Field
    requires { length s.now ≤ 18 }
    ensures { result ≡ int_field s.now }
{
    match quick(s) {
        Plain::Number(n) => Field::Value(n as i64),
        Plain::Blank => Field::Missing,
        Plain::Other => read_any_int(s),
    }
}

// The decimal field that `s` is, with a number of decimals.
pub fn read_dec(s: &[u8], decimals: usize) -> Field
    requires { (decimals < length s.now) × (length s.now ≤ 18) }
    ensures { result ≡ dec_field decimals s.now }
{
    let point = s.len() - (decimals + 1);
    field_of(scan_fraction(&s[point..], scan_whole(&s[..point])))
}

// The columns that a number of a form takes.
#[inline(always)]
pub fn width_of(form: Form) -> usize
    ensures { result ≡ form_width form }
{
    match form {
        Form::Integer(width) | Form::Decimal(width, _) => width,
    }
}

// The number of a form that `s` is.
pub fn read_number(s: &[u8], form: Form) -> Field
    requires { (length s.now ≡ form_width form) × T (good_form form) }
    ensures { result ≡ field_of form s.now }
{
    match form {
        Form::Integer(_) => read_any_int(s),
        Form::Decimal(_, decimals) => read_dec(s, decimals),
    }
}
