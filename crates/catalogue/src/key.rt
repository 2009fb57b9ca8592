// Keys by value: the words of a source, an identifier and a type, and their order.
ghost use Rattle.std.specs.Prelude.{◌≡◌, true, false, ◌+◌, ◌≤◌, ◌<◌, length, ltb, eqb};
ghost use Rattle.catalogue.specs.Line.{type_at, filled};
ghost use Rattle.catalogue.specs.Keys.{two, eight, key_in, key_number};

// The words of a key: source, identifier, and the 16 bytes of a type, which are zero in a pair's key.
// Its comparisons stand below and aren't derived: the derived ones prove too, but an order check then takes 2 % longer (bench/catalogue.c).
#[derive(Clone, Copy)]
pub struct Key {
    pub source: u64,
    pub identifier: u64,
    pub high: u64,
    pub low: u64,
}

#[inline(always)]
pub fn word2(s: &[u8], at: usize) -> u64
    requires { at + 2 ≤ length s.now }
    ensures { (result ≡ two s.now at) × (result < 65536) }
{
    u64::from(s[at]) * 256 + u64::from(s[at + 1])
}

#[inline(always)]
pub fn word8(s: &[u8], at: usize) -> u64
    requires { at + 8 ≤ length s.now }
    ensures { (result ≡ eight s.now at) × (result < 18446744073709551616) }
{
    ((word2(s, at) * 65536 + word2(s, at + 2)) * 65536 + word2(s, at + 4)) * 65536
        + word2(s, at + 6)
}

// The type at a place: of 16 bytes those before the first blank, then zeros.
fn type_at(s: &[u8], at: usize) -> [u8; 16]
    requires { at + 16 ≤ length s.now }
    ensures { result ≡ filled (type_at at s.now) }
{
    let mut bytes = [0u8; 16];
    for (i, b) in s[at..at + 16].iter().enumerate() {
        if *b == b' ' {
            return bytes;
        }
        bytes[i] = *b;
    }
    bytes
}

// The key whose source and identifier stand at two places, with no type.
#[inline(always)]
fn pair_at(s: &[u8], source: usize, identifier: usize) -> Key
    requires { (source + 2 ≤ length s.now) × (identifier + 8 ≤ length s.now) }
    ensures { key_number result ≡ key_in false source identifier s.now }
{
    Key {
        source: word2(s, source),
        identifier: word8(s, identifier),
        high: 0,
        low: 0,
    }
}

// The same with its type, which stands 13 bytes after the identifier's first.
pub fn triple_at(s: &[u8], source: usize, identifier: usize) -> Key
    requires { (source + 2 ≤ length s.now) × (identifier + 29 ≤ length s.now) }
    ensures { key_number result ≡ key_in true source identifier s.now }
{
    let bytes = type_at(s, identifier + 13);
    Key {
        source: word2(s, source),
        identifier: word8(s, identifier),
        high: word8(&bytes, 0),
        low: word8(&bytes, 8),
    }
}

// The key with a type or without one.
#[inline(always)]
pub fn key_at(s: &[u8], source: usize, identifier: usize, typed: bool) -> Key
    requires { (source + 2 ≤ length s.now) × (identifier + 8 ≤ length s.now) × (typed ≡ true → identifier + 29 ≤ length s.now) }
    ensures { key_number result ≡ key_in typed source identifier s.now }
{
    if typed {
        triple_at(s, source, identifier)
    } else {
        pair_at(s, source, identifier)
    }
}

// Whether a stands before b, where their sources and identifiers are equal.
#[inline(always)]
fn type_before(a: Key, b: Key) -> bool
    requires { (a.source ≡ b.source) × (a.identifier ≡ b.identifier) }
    ensures { result ≡ ltb (key_number a) (key_number b) }
{
    if a.high < b.high {
        return true;
    }
    if b.high < a.high {
        return false;
    }
    a.low < b.low
}

// Whether a stands before b.
#[inline(always)]
pub fn before(a: Key, b: Key) -> bool
    ensures { result ≡ ltb (key_number a) (key_number b) }
{
    if a.source < b.source {
        return true;
    }
    if b.source < a.source {
        return false;
    }
    if a.identifier < b.identifier {
        return true;
    }
    if b.identifier < a.identifier {
        return false;
    }
    type_before(a, b)
}

#[inline(always)]
pub fn equal(a: Key, b: Key) -> bool
    ensures { result ≡ eqb (key_number a) (key_number b) }
{
    if a.source != b.source {
        return false;
    }
    if a.identifier != b.identifier {
        return false;
    }
    if a.high != b.high {
        return false;
    }
    a.low == b.low
}
