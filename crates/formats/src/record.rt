// A record's bytes: its kind, a flag for each number, eight bytes for each number, high byte first, and its text.
ghost use Rattle.std.specs.Prelude.{◌≡◌, ◌+◌, ◌*◌, ◌≤◌, length, pos};
ghost use Rattle.columns.specs.Table.{flag_of, value_of, slot_of, flags_of, values_of, over, placed};
ghost use Rattle.formats.specs.Record.{pattern_of, signed_of, value_bytes, packed, slots_in};

use columns::bytes::copy_at;
use columns::word::{read_word, write_word};

// A number with a sign as 64 bits.
pub fn pattern_of(v: i64) -> u64
    ensures { result ≡ pattern_of v }
{
    v.cast_unsigned()
}

// The number with a sign that 64 bits stand for.
pub fn signed_of(u: u64) -> i64
    ensures { result ≡ signed_of u }
{
    u.cast_signed()
}

// The bytes of all values, over the first of `out`.
pub fn put_values(out: &mut [u8], values: &[i64])
    requires { 8 * length values.now ≤ length out.old }
    ensures { out.new ≡ over (value_bytes values.now) out.old }
{
    for (i, value) in values.iter().enumerate() {
        let at = 8 * i;
        write_word(&mut out[at..at + 8], pattern_of(*value));
    }
}

// The bytes of all values, from place `at` on.
fn values_at(out: &mut [u8], at: usize, values: &[i64])
    requires { at + 8 * length values.now ≤ length out.old }
    ensures { out.new ≡ placed at (value_bytes values.now) out.old }
{
    let end = at + 8 * values.len();
    put_values(&mut out[at..end], values);
}

// A record over the first bytes of `out`.
pub fn pack(out: &mut [u8], kind: u8, flags: &[u8], values: &[i64], text: &[u8])
    requires { 1 + length flags.now + 8 * length values.now + length text.now ≤ length out.old }
    ensures { out.new ≡ over (packed kind flags.now values.now text.now) out.old }
{
    let numbers = 1 + flags.len();
    let chars = numbers + 8 * values.len();
    out[0] = kind;
    copy_at(out, 1, flags);
    values_at(out, numbers, values);
    copy_at(out, chars, text);
}

fn flag_of(f: u8) -> u8
    ensures { result ≡ flag_of (slot_of f (pos 0)) }
{
    if f == 0 { 0 } else { 1 }
}

fn value_of(f: u8, v: i64) -> i64
    ensures { result ≡ value_of (slot_of f v) }
{
    if f == 0 { 0 } else { v }
}

// The numbers that flags and the bytes of values stand for, as many as `values` has places.
pub fn get_numbers(from: &[u8], bytes: &[u8], flags: &mut [u8], values: &mut [i64])
    requires { (length flags.old ≡ length values.old) × ((length values.old ≤ length from.now) × (8 * length values.old ≤ length bytes.now)) }
    ensures { (flags.new ≡ flags_of (slots_in (length values.old) from.now bytes.now)) × (values.new ≡ values_of (slots_in (length values.old) from.now bytes.now)) }
{
    for i in 0..values.len() {
        let at = 8 * i;
        flags[i] = flag_of(from[i]);
        values[i] = value_of(from[i], signed_of(read_word(&bytes[at..at + 8])));
    }
}
