// A number in bytes, high byte first.
ghost use Rattle.std.specs.Prelude.{◌≡◌, ◌≤◌, length};
ghost use Rattle.columns.specs.Word.{word_bytes, word_of};

// The last bytes of n, as many as `out` has places.
pub fn write_word(out: &mut [u8], n: u64)
    ensures { out.new ≡ word_bytes (length out.old) n }
{
    let mut m = n;
    for i in (0..out.len()).rev() {
        out[i] = (m % 256) as u8;
        m /= 256;
    }
}

// The number whose bytes are those of s.
pub fn read_word(s: &[u8]) -> u64
    requires { length s.now ≤ 8 }
    ensures { result ≡ word_of 0 s.now }
{
    let mut n = 0u64;
    for b in s {
        n = n * 256 + u64::from(*b);
    }
    n
}
