// Number fields iW and fW.D, written.
ghost use Rattle.std.specs.Prelude.{◌≡◌, true, ◌∷◌, ◌++◌, ◌+◌, ◌-◌, ◌/◌, ◌^◌, ◌≤◌, length, nat_abs, T};
ghost use Rattle.columns.specs.Number.{digits_of, int_bytes, holds_int, holds_dec, byte_of, next_pen, back, dec_bytes, form_width, good_form, holds, field_bytes, zero_filled};

use super::number::Form;

// The last digits of n, as many as `out` has places.
pub fn write_digits(out: &mut [u8], n: u64)
    ensures { out.new ≡ digits_of (length out.old) n }
{
    let mut m = n;
    for i in (0..out.len()).rev() {
        out[i] = b'0' + (m % 10) as u8;
        m /= 10;
    }
}

// 10 to the power k.
pub fn power(k: usize) -> u64
    requires { k ≤ 18 }
    ensures { result ≡ 10 ^ k }
{
    10u64.pow(k as u32)
}

// The number without its sign.
pub fn magnitude_of(v: i64) -> u64
    ensures { result ≡ nat_abs v }
{
    v.unsigned_abs()
}

// Whether an integer field of `width` columns holds v.
pub fn holds_int(width: usize, v: i64) -> bool
    requires { (1 ≤ width) × (width ≤ 18) }
    ensures { result ≡ holds_int width v }
{
    let places = if v < 0 { width - 1 } else { width };
    magnitude_of(v) < power(places)
}

// Whether a decimal field of `width` columns holds v.
pub fn holds_dec(width: usize, v: i64) -> bool
    requires { (3 ≤ width) × (width ≤ 18) }
    ensures { result ≡ holds_dec width v }
{
    let places = if v < 0 { width - 2 } else { width - 1 };
    magnitude_of(v) < power(places)
}

// The integer field that `out` is.
pub fn write_int(out: &mut [u8], v: i64)
    requires { 1 ≤ length out.old }
    ensures { out.new ≡ int_bytes (length out.old) v }
{
    let n = magnitude_of(v);
    if v < 0 {
        out[0] = b'-';
        write_digits(&mut out[1..], n);
    } else {
        write_digits(out, n);
    }
}

// What is still to be written to the left: digits of a number, then its minus, then blanks.
#[derive(Clone, Copy)]
pub struct Pen {
    pub more: bool,
    pub minus: bool,
    pub left: u64,
}

impl Pen {
    pub fn byte(self) -> u8
        ensures { result ≡ byte_of self }
    {
        if self.more {
            b'0' + (self.left % 10) as u8
        } else if self.minus {
            b'-'
        } else {
            b' '
        }
    }

    pub fn next(self) -> Pen
        ensures { result ≡ next_pen self }
    {
        Pen {
            more: self.more && 10 <= self.left,
            minus: self.more && self.minus,
            left: self.left / 10,
        }
    }
}

// The places of `out`, from the right.
fn write_back(out: &mut [u8], pen: Pen)
    ensures { out.new ≡ back (length out.old) pen }
{
    let mut p = pen;
    for i in (0..out.len()).rev() {
        out[i] = p.byte();
        p = p.next();
    }
}

// The decimal field that `out` is, where it holds the number.
pub fn write_dec(out: &mut [u8], decimals: usize, v: i64)
    requires { (decimals + 3 ≤ length out.old) × ((length out.old ≤ 18) × (holds_dec (length out.old) v ≡ true)) }
    ensures { out.new ≡ dec_bytes (length out.old) decimals v }
{
    let n = magnitude_of(v);
    let point = out.len() - (decimals + 1);
    let whole = n / power(decimals);
    write_digits(&mut out[point + 1..], n);
    out[point] = b'.';
    let pen = Pen {
        more: true,
        minus: v < 0,
        left: whole,
    };
    write_back(&mut out[..point], pen);
}

// ---- a number of either form

// Whether a field of a form holds v.
pub fn holds_number(form: Form, v: i64) -> bool
    requires { T (good_form form) }
    ensures { result ≡ holds form v }
{
    match form {
        Form::Integer(width) => holds_int(width, v),
        Form::Decimal(width, _) => holds_dec(width, v),
    }
}

// The field of a form that `out` is, where it holds the number.
pub fn write_number(out: &mut [u8], form: Form, v: i64)
    requires { (length out.old ≡ form_width form) × (T (good_form form) × (holds form v ≡ true)) }
    ensures { out.new ≡ field_bytes form v }
{
    match form {
        Form::Integer(_) => write_int(out, v),
        Form::Decimal(_, decimals) => write_dec(out, decimals, v),
    }
}

// A whole part and `decimals` digits after a point, filled with zeros.
fn write_zero_dec(out: &mut [u8], decimals: usize, n: u64)
    requires { (decimals + 1 ≤ length out.old) × (decimals ≤ 18) }
    ensures { out.new ≡ digits_of (length out.old - (decimals + 1)) (n / 10 ^ decimals) ++ 46 ∷ digits_of decimals n }
{
    let point = out.len() - (decimals + 1);
    let whole = n / power(decimals);
    write_digits(&mut out[point + 1..], n);
    out[point] = b'.';
    write_digits(&mut out[..point], whole);
}

// The field of a form that `out` is, filled with zeros.
pub fn write_zeros(out: &mut [u8], form: Form, n: u64)
    requires { (length out.old ≡ form_width form) × T (good_form form) }
    ensures { out.new ≡ zero_filled form n }
{
    match form {
        Form::Integer(_) => write_digits(out, n),
        Form::Decimal(_, decimals) => write_zero_dec(out, decimals, n),
    }
}
