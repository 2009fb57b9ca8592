// The lines of a text.
ghost use Rattle.std.specs.Prelude.{◌≡◌, true, false, ◌≤◌, ◌<◌, length};
ghost use Rattle.formats.specs.Lines.{end_from, line_end};

pub const NEWLINE: u8 = b'\n';

pub const BLANK: u8 = b' ';

// The first place from `at` on that holds the byte `stop`, or the end of `s`. Counted by hand, as in line_end: with `position` and
// `split_first_chunk` in their place a walk of a run took a quarter longer.
pub fn scan_end(s: &[u8], at: usize, stop: u8) -> usize
    ensures { (result ≡ end_from stop s.now at) × (at ≤ result) }
{
    let mut i = at;
    while i < s.len() {
        if s[i] == stop {
            return i;
        }
        i += 1;
    }
    i
}

// Whether sixteen bytes have no newline. The loop has no way out but its end, so that it becomes one comparison of sixteen bytes.
fn no_newline(c: &[u8]) -> bool
    requires { length c.now ≡ 16 }
    ensures { (result ≡ true → line_end c.now 0 ≡ 16) × (result ≡ false → line_end c.now 0 < 16) }
{
    let mut ok = true;
    for i in 0..16 {
        ok = ok & (c[i] != NEWLINE);
    }
    ok
}

// The place of the first newline of sixteen bytes, or 16: from the last byte down, the lowest place is kept.
fn newline_in(c: &[u8]) -> usize
    requires { length c.now ≡ 16 }
    ensures { result ≡ line_end c.now 0 }
{
    let mut m = 16;
    for i in (0..16).rev() {
        if c[i] == NEWLINE {
            m = i;
        }
    }
    m
}

// Where the line that starts at `at` ends: its newline, or the end of `s`.
pub fn line_end(s: &[u8], at: usize) -> usize
    requires { at ≤ length s.now }
    ensures { (result ≡ line_end s.now at) × (at ≤ result) × (result ≤ length s.now) }
{
    let mut i = at;
    while 16 <= s.len() - i {
        let e = i + 16;
        if !no_newline(&s[i..e]) {
            return i + newline_in(&s[i..e]);
        }
        i = e;
    }
    scan_end(s, i, NEWLINE)
}
