// The sections of a room: held lines, deletions, links.
ghost use Rattle.std.specs.Prelude.{◌≡◌, ◌+◌, ◌≤◌, length};
ghost use Rattle.catalogue.specs.Places.{end_of, section_after, held_in, deletions_in, links_in};

use super::key::word2;
use super::section::Section;

// Where a section of a room ends.
pub fn end_of(room: &[u8], of: Section) -> usize
    requires { end_of of ≤ length room.now }
    ensures { result ≡ end_of of }
{
    of.at + 2 + of.size * of.count
}

pub fn held_in(room: &[u8]) -> Section
    requires { 2 ≤ length room.now }
    ensures { result ≡ held_in room.now }
{
    Section {
        at: 0,
        count: word2(room, 0) as usize,
        size: 80,
        source: 10,
        identifier: 2,
        typed: false,
    }
}

// The section behind another, by its shape.
fn section_after(
    room: &[u8],
    of: Section,
    size: usize,
    source: usize,
    identifier: usize,
    typed: bool,
) -> Section
    requires { end_of of + 2 ≤ length room.now }
    ensures { result ≡ section_after room.now of size source identifier typed }
{
    let at = end_of(room, of);
    Section {
        at,
        count: word2(room, at) as usize,
        size,
        source,
        identifier,
        typed,
    }
}

pub fn deletions_in(room: &[u8], held: Section) -> Section
    requires { (held ≡ held_in room.now) × (end_of held + 2 ≤ length room.now) }
    ensures { result ≡ deletions_in room.now }
{
    section_after(room, held, 11, 0, 2, false)
}

pub fn links_in(room: &[u8], deletions: Section) -> Section
    requires { (deletions ≡ deletions_in room.now) × (end_of deletions + 2 ≤ length room.now) }
    ensures { result ≡ links_in room.now }
{
    section_after(room, deletions, 256, 11, 3, true)
}
