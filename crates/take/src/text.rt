// Text put behind what is gathered.
ghost use Rattle.std.specs.Prelude.{◌≡◌, [], ◌∷◌, ◌++◌, ◌+◌, ◌*◌, ◌^◌, ◌≤◌, ◌<◌, length};
ghost use Rattle.catalogue.specs.Ordered.{Ordered};
ghost use Rattle.catalogue.specs.Room.{contents};
ghost use Rattle.catalogue.specs.Entries.{entries_of};
ghost use Rattle.take.specs.Text.{digits, decimal, heading, printed_line, row_lines, section, catalogue_text};

use super::links::put_links;
use super::page::Page;
use catalogue::room::{deletions_in, held_in, links_in};
use catalogue::section::Entries;

// The most digits that a number of 64 bits has.
const DIGITS: usize = 20;

// The digits of a number that has at most `most` of them.
fn put_digits(out: &mut Page<DIGITS>, n: u64, most: usize)
    requires { (length out.old + most ≤ 20) × (1 ≤ most) × (n < 10 ^ most) }
    ensures { out.new ≡ out.old ++ digits most n }
{
    if n < 10 {
        out.put_byte(b'0' + n as u8);
        return;
    }
    put_digits(out, n / 10, most - 1);
    out.put_byte(b'0' + (n % 10) as u8);
}

pub fn put_number<const N: usize>(out: &mut Page<N>, n: u64)
    requires { length out.old + 20 ≤ N }
    ensures { (out.new ≡ out.old ++ decimal n) × (length out.new ≤ length out.old + 20) }
{
    let mut digits = Page::new();
    put_digits(&mut digits, n, DIGITS);
    out.put_bytes(digits.written());
}

#[tactic(auto, unfolding(crate::specs::Text::heading))]
pub fn put_heading<const N: usize>(out: &mut Page<N>)
    requires { length out.old + 19 ≤ N }
    ensures { out.new ≡ out.old ++ heading }
{
    out.put_bytes(b"line answer column\n");
}

// A line's number, the number answered and the column.
pub fn put_answer<const N: usize>(out: &mut Page<N>, number: u64, answer: u8, column: usize)
    requires { length out.old + 63 ≤ N }
    ensures { (out.new ≡ out.old ++ printed_line number answer column) × (length out.new ≤ length out.old + 63) }
{
    put_number(out, number);
    out.put_byte(b' ');
    put_number(out, u64::from(answer));
    out.put_byte(b' ');
    put_number(out, column as u64);
    out.put_byte(b'\n');
}

// The entries of a section, each on a line of its own.
fn put_entries<const N: usize>(out: &mut Page<N>, entries: &Entries)
    requires { length out.old + (entries.now.of.size + 1) * entries.now.of.count ≤ N }
    ensures { (out.new ≡ out.old ++ row_lines (entries_of entries.now.of entries.now.bytes.now)) × (length out.new ≡ length out.old + (entries.now.of.size + 1) * entries.now.of.count) }
{
    for i in 0..entries.of.count {
        out.put_bytes(entries.entry(i));
        out.put_byte(b'\n');
    }
}

// A section: its title and count, then its entries.
fn put_section<const N: usize>(out: &mut Page<N>, title: &[u8], entries: &Entries)
    requires { length out.old + length title.now + 21 + (entries.now.of.size + 1) * entries.now.of.count ≤ N }
    ensures { (out.new ≡ out.old ++ section title.now (entries_of entries.now.of entries.now.bytes.now)) × (length out.new ≤ length out.old + length title.now + 21 + (entries.now.of.size + 1) * entries.now.of.count) }
{
    out.put_bytes(title);
    put_number(out, entries.of.count as u64);
    out.put_byte(b'\n');
    put_entries(out, entries);
}

// The held lines, the deletions, the links: at most 64,082 bytes.
pub fn put_catalogue<const N: usize>(out: &mut Page<N>, room: &[u8])
    requires { Ordered room.now × (length out.old + 64082 ≤ N) }
    ensures { (out.new ≡ out.old ++ catalogue_text (contents room.now)) × (length out.new ≤ length out.old + 64082) }
{
    let held = held_in(room);
    let deletions = deletions_in(room, held);
    let links = links_in(room, deletions);
    put_section(
        out,
        b"held ",
        &Entries {
            bytes: room,
            of: held,
        },
    );
    put_section(
        out,
        b"deleted ",
        &Entries {
            bytes: room,
            of: deletions,
        },
    );
    put_links(
        out,
        &Entries {
            bytes: room,
            of: links,
        },
    );
}
