// Links: the bytes of an entry, what a link decides, and its entry stored.
ghost use Rattle.std.specs.Prelude.{◌≡◌, List, ℕ, ◌≤◌, length};
ghost use Rattle.catalogue.specs.Line.{link, kind, triple_key, link_entry, link_key};
ghost use Rattle.catalogue.specs.Taking.{over_link, limited_link, deed_of};
ghost use Rattle.catalogue.specs.Room.{contents, room_after};
ghost use Rattle.catalogue.specs.Ordered.{Ordered};
ghost use Rattle.catalogue.specs.Entries.{entries_of, entry_of, IsPlaceOf, Sought};
ghost use Rattle.catalogue.specs.Places.{links_in};

use super::decide::Deed;
use super::key::word2;
use super::moves::put;
use super::room::end_of;
use super::section::{Entries, Section};
use super::splice::copy_in;
use super::{Effect, LINKS};
use columns::Reason;
use columns::bytes::same;

// Where an entry has its line's version.
const VERSION: usize = 13;

// A link's bytes: the length of the line, the line, zeros.
pub fn link_entry(line: &[u8]) -> [u8; 256]
    requires { length line.now ≤ 255 }
    ensures { result ≡ link_entry line.now }
{
    let mut entry = [0u8; 256];
    entry[0] = line.len() as u8;
    copy_in(&mut entry, 1, line);
    entry
}

// What a link does, by what is found of its triple; `entry` has its bytes.
#[tactic(auto, using(crate::proofs::laws::room::Linked::version_at), unfolding(crate::specs::Taking::over_link))]
pub fn over_link(links: &Entries, seek: Result<usize, usize>, entry: &[u8]) -> Deed<Effect>
    requires { (links.now.of.size ≡ 256) × IsPlaceOf seek links.now.of.count × (length entry.now ≡ 256) }
    ensures { result ≡ over_link entry.now (entry_of (entries_of links.now.of links.now.bytes.now) seek) }
{
    match seek {
        Err(_) => Deed::Link(Effect::Stored),
        Ok(i) => {
            let stored = links.entry(i);
            if word2(entry, VERSION) < word2(stored, VERSION) {
                Deed::Leave(Ok(Effect::Outdated))
            } else if same(entry, stored) {
                Deed::Leave(Ok(Effect::Repeated))
            } else {
                Deed::Link(Effect::Replaced)
            }
        }
    }
}

// A new triple needs room.
#[tactic(auto, unfolding(crate::specs::Taking::limited_link))]
pub fn limited_link<E: Copy>(count: usize, seek: Result<usize, usize>, deed: Deed<E>) -> Deed<E>
    ensures { (ks : List (List ℕ)) → result ≡ limited_link count (entry_of ks seek) deed }
{
    if seek.is_err() && LINKS <= count {
        Deed::Leave(Err(Reason::LinksFull.at(0)))
    } else {
        deed
    }
}

// Does what was decided of a link, whose place `seek` is.
pub fn store_link(
    room: &mut [u8],
    links: Section,
    seek: Result<usize, usize>,
    deed: Deed<Effect>,
    line: &[u8],
    entry: &[u8],
)
    requires { Ordered room.old × (links ≡ links_in room.old) × (kind line.now ≡ link) × Sought link_key (triple_key line.now) (contents room.old).links seek × (deed ≡ deed_of (contents room.old) line.now) × (entry.now ≡ link_entry line.now) }
    ensures { room.new ≡ room_after room.old line.now }
{
    if let Deed::Link(_) = deed {
        let used = end_of(room, links);
        put(room, links, used, seek, entry);
    }
}
