// The check character of an E line, worked out with no division and no remainder: by shifts, masks and small products.
ghost use Rattle.std.specs.Prelude.{◌≡◌, ◌+◌, ◌%◌, ◌≤◌, length, drop};
ghost use Rattle.formats.specs.Check.{rotated, check_sum, check_character};

// A sum rotated right by one bit.
fn rotate(sum: u16) -> u16
    ensures { result ≡ rotated sum }
{
    (sum >> 1) | (sum << 15)
}

// The sum with one byte more.
fn with_byte(sum: u16, b: u8) -> u16
    ensures { result ≡ (rotated sum + b) % 65536 }
{
    ((rotate(sum) as u32 + b as u32) & 65535) as u16
}

// The sum with the three bytes from place `at` on.
pub fn with_three(sum: u16, s: &[u8], at: usize) -> u16
    requires { at + 3 ≤ length s.now }
    ensures { check_sum result (drop (at + 3) s.now) ≡ check_sum sum (drop at s.now) }
{
    let one = with_byte(sum, s[at]);
    let two = with_byte(one, s[at + 1]);
    with_byte(two, s[at + 2])
}

// The sum with all bytes.
fn with_all(before: u16, s: &[u8]) -> u16
    ensures { result ≡ check_sum before s.now }
{
    let mut sum = before;
    for b in s {
        sum = with_byte(sum, *b);
    }
    sum
}

// The sum with eight bytes more. `all` is the sum and the bytes, each as far to the left as it is to be rotated; rotated by eight bits it
// is the new sum, unless a step before the last passes 65535. That takes ones at the end of `all`, one after the other rotated to the top
// of a sum near 65535: `ones` is as long as they are and one longer, and where the sum has no room for it, it goes byte by byte.
fn with_eight(sum: u16, part: &[u8]) -> u16
    requires { length part.now ≡ 8 }
    ensures { result ≡ check_sum sum part.now }
{
    let mut ahead: u32 = 0;
    for k in (0..8).rev() {
        ahead = 2 * (part[k] as u32 + ahead);
    }
    let all = sum as u32 + ahead;
    let ones = all ^ (all + 1);
    if sum as u32 + 256 * ones < 65791 {
        return (((all >> 8) + (all << 8)) & 65535) as u16;
    }
    with_all(sum, part)
}

// A sum modulo 91. 4096 is 45 * 91 + 1: so the high four bits are added to the low twelve, and a 91st is 45 of 4096 parts.
fn modulo_91(sum: u16) -> u8
    ensures { result ≡ sum % 91 }
{
    let wide = sum as u32;
    let folded = (wide >> 12) + (wide & 4095);
    let times = ((folded + 1) * 45) >> 12;
    (folded - times * 91) as u8
}

// The check character of all bytes, where `before` is the sum of those before `from`.
pub fn check_from(s: &[u8], from: usize, before: u16) -> u8
    requires { (from ≤ length s.now) × (check_sum before (drop from s.now) ≡ check_sum 0 s.now) }
    ensures { result ≡ check_character s.now }
{
    36 + modulo_91(with_all(before, &s[from..]))
}

// The check character of all bytes.
pub fn check_character(s: &[u8]) -> u8
    ensures { result ≡ check_character s.now }
{
    let mut sum: u16 = 0;
    let mut rest = s;
    // by slices: a pair of them, as `split_first_chunk` has it, would be copied by a call (tests/divide)
    while 8 <= rest.len() {
        sum = with_eight(sum, &rest[..8]);
        rest = &rest[8..];
    }
    36 + modulo_91(with_all(sum, rest))
}
