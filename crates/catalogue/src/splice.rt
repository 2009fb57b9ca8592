// Moves within a lent buffer.
ghost use Rattle.std.specs.Prelude.{◌≡◌, ◌+◌, ◌≤◌, ◌<◌, length};
ghost use Rattle.std.proofs.Math.Seq.{paste};
ghost use Rattle.catalogue.specs.Splice.{spliced, cut_out, counted};

// Copies all of src into dst from `at` on.
pub fn copy_in(dst: &mut [u8], at: usize, src: &[u8])
    requires { at + length src.now ≤ length dst.old }
    ensures { dst.new ≡ paste dst.old at src.now (length src.now) }
{
    dst[at..at + src.len()].copy_from_slice(src);
}

// Puts the bytes of s in at `at`, and moves those from there up to `used` up.
pub fn splice(room: &mut [u8], at: usize, used: usize, s: &[u8])
    requires { (at ≤ used) × (used + length s.now ≤ length room.old) }
    ensures { room.new ≡ spliced room.old at used s.now }
{
    room.copy_within(at..used, at + s.len());
    copy_in(room, at, s);
}

// Takes w bytes out at `at`: those after them up to `used` move down, and zeros follow.
pub fn cut(room: &mut [u8], at: usize, used: usize, w: usize)
    requires { (at + w ≤ used) × (used ≤ length room.old) }
    ensures { room.new ≡ cut_out room.old at used w }
{
    room.copy_within(at + w..used, at);
    room[used - w..used].fill(0);
}

// Stores a count in two bytes, high byte first.
pub fn set_count(room: &mut [u8], at: usize, n: usize)
    requires { (at + 2 ≤ length room.old) × (n < 65536) }
    ensures { room.new ≡ counted room.old at n }
{
    room[at] = (n / 256) as u8;
    room[at + 1] = (n % 256) as u8;
}
