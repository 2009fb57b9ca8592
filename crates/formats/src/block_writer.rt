// A block of rows, written: the header and each record as a line with its newline, through the part of the lent output that
// starts at a given place.
ghost use Rattle.std.specs.Prelude.{◌≡◌, ◌+◌, ◌-◌, ◌^◌, ◌<◌, length};
ghost use Rattle.formats.specs.Record.{Replied};
ghost use Rattle.formats.specs.Row.{write_row_from};
ghost use Rattle.formats.specs.Format.{format_of, header_of};
ghost use Rattle.formats.specs.BlockWriting.{ended, write_header, header_call, record_call, from_place, RepliedFrom};
ghost use Rattle.formats.specs.Numbers.{reply_length};

use super::header::put_header;
use super::lines::NEWLINE;
use super::row::write_row_from;
use columns::bytes::copy;
use columns::{Reason, Refusal};

// The header and its newline, over the first bytes of `part`.
fn header_line(kind: u8, part: &mut [u8]) -> Result<usize, Refusal>
    ensures { Replied (ended (write_header (header_of kind) (length part.old - 1))) result part.old part.new }
{
    let mut words = [0u8; 256];
    let n = put_header(kind, &mut words);
    if part.len() <= n {
        return Err(Reason::Short.at(0));
    }
    copy(part, &words[0..n]);
    part[n] = NEWLINE;
    Ok(n + 1)
}

// A record's line and its newline, over the first bytes of `part`.
fn record_line(kind: u8, from: &[u8], part: &mut [u8]) -> Result<usize, Refusal>
    requires { 0 < length part.old }
    ensures { Replied (ended (write_row_from (format_of kind) from.now (length part.old - 1))) result part.old part.new }
{
    let room = part.len() - 1;
    let len = write_row_from(kind, from, &mut part[0..room])?;
    part[len] = NEWLINE;
    Ok(len + 1)
}

// The reply to what was written from place `at` on.
fn from_place(at: usize, reply: Result<usize, Refusal>) -> Result<usize, Refusal>
    requires { at + reply_length reply < 2 ^ 64 }
    ensures { result ≡ from_place at reply }
{
    Ok(at + reply?)
}

// The header of a kind's blocks and its newline, from place `at` of `out` on; answers the place after it. Nothing is changed where it is refused.
pub fn write_header(kind: u8, out: &mut [u8], at: usize) -> Result<usize, Refusal>
    ensures { RepliedFrom at (header_call (header_of kind) at (length out.old)) result out.old out.new }
{
    if out.len() <= at {
        return Err(Reason::Short.at(0));
    }
    from_place(at, header_line(kind, &mut out[at..]))
}

// A record of a kind (its bytes, docs/RECORDS.md) as a line and its newline, from place `at` of `out` on; answers the place after it.
// Nothing is changed where it is refused.
pub fn write_record(kind: u8, from: &[u8], out: &mut [u8], at: usize) -> Result<usize, Refusal>
    ensures { RepliedFrom at (record_call (format_of kind) from.now at (length out.old)) result out.old out.new }
{
    if out.len() <= at {
        return write_row_from(kind, from, &mut out[0..0]);
    }
    from_place(at, record_line(kind, from, &mut out[at..]))
}
