// Links printed: the lines of those that no text takes back.
ghost use Rattle.std.specs.Prelude.{◌≡◌, [], ◌∷◌, ◌++◌, ◌+◌, ◌*◌, ◌≤◌, length};
ghost use Rattle.catalogue.specs.Line.{link_line};
ghost use Rattle.catalogue.specs.Entries.{entries_of};
ghost use Rattle.take.specs.Text.{row_lines, section, links_title};
ghost use Rattle.take.specs.Links.{shown};

use super::page::Page;
use super::text::put_number;
use catalogue::section::Entries;
use formats::link::is_delete;

// The line of an entry.
fn line_of(entry: &[u8]) -> &[u8]
    requires { length entry.now ≡ 256 }
    ensures { (result.now ≡ link_line entry.now) × (length result.now ≤ 255) }
{
    &entry[1..1 + entry[0] as usize]
}

// How many links are printed.
fn count_shown(links: &Entries) -> usize
    requires { links.now.of.size ≡ 256 }
    ensures { (result ≡ length (shown (entries_of links.now.of links.now.bytes.now))) × (result ≤ links.now.of.count) }
{
    let mut n = 0;
    for i in 0..links.of.count {
        if !is_delete(line_of(links.entry(i))) {
            n += 1;
        }
    }
    n
}

// The line of an entry whose link is printed, and a newline; nothing of another.
fn put_link<const N: usize>(out: &mut Page<N>, entry: &[u8])
    requires { (length entry.now ≡ 256) × (length out.old + 256 ≤ N) }
    ensures { (out.new ≡ out.old ++ row_lines (shown (entry.now ∷ []))) × (length out.new ≤ length out.old + 256) }
{
    let line = line_of(entry);
    if !is_delete(line) {
        out.put_bytes(line);
        out.put_byte(b'\n');
    }
}

// The lines of the links that are printed.
fn put_shown<const N: usize>(out: &mut Page<N>, links: &Entries)
    requires { (links.now.of.size ≡ 256) × (length out.old + 256 * links.now.of.count ≤ N) }
    ensures { (out.new ≡ out.old ++ row_lines (shown (entries_of links.now.of links.now.bytes.now))) × (length out.new ≤ length out.old + 256 * links.now.of.count) }
{
    for i in 0..links.of.count {
        put_link(out, links.entry(i));
    }
}

// `links`, how many are printed, and their lines.
pub fn put_links<const N: usize>(out: &mut Page<N>, links: &Entries)
    requires { (links.now.of.size ≡ 256) × (length out.old + 27 + 256 * links.now.of.count ≤ N) }
    ensures { (out.new ≡ out.old ++ section links_title (shown (entries_of links.now.of links.now.bytes.now))) × (length out.new ≤ length out.old + 27 + 256 * links.now.of.count) }
{
    out.put_bytes(b"links ");
    put_number(out, count_shown(links) as u64);
    out.put_byte(b'\n');
    put_shown(out, links);
}
