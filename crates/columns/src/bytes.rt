// Byte classes, and stretches of bytes: all blank, copied, the lowest barred byte, a letter of a set, equal.
ghost use Rattle.std.specs.Prelude.{◌≡◌, true, false, ◌++◌, ◌+◌, ◌-◌, ◌≤◌, length, take, drop, replicate};
ghost use Rattle.columns.specs.Answer.{pick};
ghost use Rattle.columns.specs.Bytes.{skip, trim, all_blank, is_digit, is_bracket, is_allowed, inside, Plain, barred, found, member, same_bytes};
ghost use Rattle.columns.specs.Table.{placed};

// All bytes `b`. One byte, the usual case, is written without a call to the compiler's own filling.
pub fn fill(out: &mut [u8], b: u8)
    ensures { out.new ≡ replicate (length out.old) b }
{
    if out.len() == 1 {
        out[0] = b;
    } else {
        out.fill(b);
    }
}

// All blank.
pub fn blanks(out: &mut [u8])
    ensures { out.new ≡ replicate (length out.old) 32 }
{
    fill(out, b' ');
}

// The bytes of `from`, over the first of `out`.
pub fn copy(out: &mut [u8], from: &[u8])
    requires { length from.now ≤ length out.old }
    ensures { out.new ≡ from.now ++ drop (length from.now) out.old }
{
    out[..from.len()].copy_from_slice(from);
}

// The bytes of `from`, from place `at` on.
pub fn copy_at(out: &mut [u8], at: usize, from: &[u8])
    requires { at + length from.now ≤ length out.old }
    ensures { out.new ≡ placed at from.now out.old }
{
    let end = at + from.len();
    copy(&mut out[at..end], from);
}

// The bytes after the leading ones that are `b`.
pub fn skip(s: &[u8], b: u8) -> &[u8]
    ensures { result.now ≡ skip b s.now }
{
    for (i, here) in s.iter().enumerate() {
        if *here != b {
            return &s[i..];
        }
    }
    &s[s.len()..]
}

// The bytes after the leading blanks.
pub fn trim(s: &[u8]) -> &[u8]
    ensures { result.now ≡ trim s.now }
{
    skip(s, b' ')
}

// Whether there is nothing but blanks.
pub fn is_blank(s: &[u8]) -> bool
    ensures { result ≡ all_blank s.now }
{
    trim(s).is_empty()
}

pub fn is_digit(b: u8) -> bool
    ensures { result ≡ is_digit b }
{
    matches!(b, b'0'..=b'9')
}

pub fn is_bracket(b: u8) -> bool
    ensures { result ≡ is_bracket b }
{
    matches!(b, b'[' | b']')
}

fn is_inside(from: usize, to: usize, column: usize) -> bool
    ensures { result ≡ inside from to column }
{
    from <= column && column <= to
}

// Whether a byte may not stand in a column, brackets barred in the columns `from` to `to`.
pub fn is_barred(b: u8, column: usize, from: usize, to: usize) -> bool
    ensures { result ≡ pick (is_allowed (inside from to column) b) false true }
{
    b < b' ' || b'~' < b || is_bracket(b) && is_inside(from, to, column)
}

// The same as first_barred, a byte at a time: a rare call, which is kept out of the callers' loops.
#[inline(never)]
fn scan_barred(s: &[u8], column: usize, from: usize, to: usize) -> Option<usize>
    requires { (1 ≤ column) × (column + length s.now ≤ 70000) }
    ensures { result ≡ found (barred from to column s.now) }
{
    for (i, b) in s.iter().enumerate() {
        if is_barred(*b, column + i, from, to) {
            return Some(column + i);
        }
    }
    None
}

// Whether each byte may stand in any column. The loop has no way out but its end, so that the compiler makes it compare sixteen
// bytes at once; a part of sixteen bytes becomes one comparison.
fn plain_part(s: &[u8]) -> bool
    ensures { result ≡ true → Plain (length s.now) s.now }
{
    let mut ok = true;
    for b in s {
        ok &= !is_barred(*b, 0, 0, 0);
    }
    ok
}

// The same as first_barred for the bytes from place `start` up to place `end`.
fn barred_between(
    s: &[u8],
    start: usize,
    end: usize,
    column: usize,
    from: usize,
    to: usize,
) -> Option<usize>
    requires { (start ≤ end) × ((end ≤ length s.now) × ((1 ≤ column) × (column + length s.now ≤ 70000))) }
    ensures { result ≡ found (barred from to (column + start) (take (end - start) (drop start s.now))) }
{
    let part = &s[start..end];
    if plain_part(part) {
        return None;
    }
    scan_barred(part, column + start, from, to)
}

// The lowest column with a barred byte, brackets barred in the columns `from` to `to`. The bytes of `s` stand from
// `column` on. In parts of sixteen bytes: the last part ends where `s` ends, and may hold bytes of the part before it.
#[inline(always)]
pub fn first_barred(s: &[u8], column: usize, from: usize, to: usize) -> Option<usize>
    requires { (1 ≤ column) × (column + length s.now ≤ 70000) }
    ensures { result ≡ found (barred from to column s.now) }
{
    let n = s.len();
    if n < 16 {
        return barred_between(s, 0, n, column, from, to);
    }
    let mut i = 0;
    while 16 < n - i {
        let e = i + 16;
        let found = barred_between(s, i, e, column, from, to);
        if found.is_some() {
            return found;
        }
        i = e;
    }
    barred_between(s, n - 16, n, column, from, to)
}

// Whether the letters have b.
pub fn has(letters: &[u8], b: u8) -> bool
    ensures { result ≡ member b letters.now }
{
    letters.contains(&b)
}

// Whether two stretches of one length are equal. The loop has no way out but its end, so that the compiler makes it compare
// sixteen bytes at once; a part of sixteen bytes becomes one comparison.
fn same_part(a: &[u8], b: &[u8]) -> bool
    requires { length a.now ≡ length b.now }
    ensures { result ≡ same_bytes a.now b.now }
{
    let mut ok = true;
    for (i, x) in a.iter().enumerate() {
        ok &= *x == b[i];
    }
    ok
}

// The same for the bytes from place `from` up to place `to`.
fn same_between(a: &[u8], b: &[u8], from: usize, to: usize) -> bool
    requires { (from ≤ to) × ((to ≤ length a.now) × (to ≤ length b.now)) }
    ensures { result ≡ same_bytes (take (to - from) (drop from a.now)) (take (to - from) (drop from b.now)) }
{
    same_part(&a[from..to], &b[from..to])
}

// Whether two stretches of bytes are equal. The last part ends where they end, and may hold bytes of the part before it.
pub fn same(a: &[u8], b: &[u8]) -> bool
    ensures { result ≡ same_bytes a.now b.now }
{
    let n = a.len();
    if n != b.len() {
        return false;
    }
    if n < 16 {
        return same_part(a, b);
    }
    let mut i = 0;
    while 16 < n - i {
        let e = i + 16;
        if !same_between(a, b, i, e) {
            return false;
        }
        i = e;
    }
    same_between(a, b, n - 16, n)
}
