// Whether a room is in order, and how many pairs it then names.
ghost use Rattle.std.specs.Prelude.{◌≡◌, ℕ, ◌&&◌, [], ◌∷◌, ◌≤◌, ◌<◌, length, get_or, Some, None};
ghost use Rattle.columns.specs.Answer.{pick};
ghost use Rattle.catalogue.specs.Line.{key, deletion_key};
ghost use Rattle.catalogue.specs.Assoc.{below, AscFrom};
ghost use Rattle.catalogue.specs.Catalogue.{only_held, named};
ghost use Rattle.catalogue.specs.Good.{ascends, every, held_ok, deletion_ok, link_ok};
ghost use Rattle.catalogue.specs.Room.{room_size, contents, is_in_order, order_of, call_of, room_after};
ghost use Rattle.catalogue.specs.Entries.{entries_of, key_of_entry};
ghost use Rattle.catalogue.specs.Zeros.{all_zero};

use super::room::{deletions_in, end_of, held_in, links_in};
use super::section::Entries;
use super::take::take_ordered;
use super::{Effect, LINKS, PAIRS, ROOM};
use columns::bytes::{first_barred, same};
use columns::{Reason, Refusal};
use formats::judge::{is_event, is_link};

// Whether each deletion is of allowed bytes.
fn deletions_allowed(deletions: &Entries) -> bool
    requires { deletions.now.of.size ≡ 11 }
    ensures { result ≡ every deletion_ok (entries_of deletions.now.of deletions.now.bytes.now) }
{
    for i in 0..deletions.of.count {
        if first_barred(deletions.entry(i), 1, 1, 11).is_some() {
            return false;
        }
    }
    true
}

// Whether all bytes are zero: the first is, and each is as the one before it.
fn zeros(s: &[u8]) -> bool
    ensures { result ≡ all_zero s.now }
{
    s.is_empty() || s[0] == 0 && same(&s[..s.len() - 1], &s[1..])
}

// Whether a link's entry is that of an acceptable LI line.
fn link_allowed(entry: &[u8]) -> bool
    requires { length entry.now ≡ 256 }
    ensures { result ≡ link_ok entry.now }
{
    let end = 1 + entry[0] as usize;
    is_link(&entry[1..end]) && zeros(&entry[end..])
}

// Whether each link's entry is.
fn links_allowed(links: &Entries) -> bool
    requires { links.now.of.size ≡ 256 }
    ensures { result ≡ every link_ok (entries_of links.now.of links.now.bytes.now) }
{
    for i in 0..links.of.count {
        if !link_allowed(links.entry(i)) {
            return false;
        }
    }
    true
}

// Whether the links ascend and each entry is.
fn links_fine(links: &Entries) -> bool
    requires { links.now.of.size ≡ 256 }
    ensures { result ≡ (ascends (key_of_entry links.now.of) 0 (entries_of links.now.of links.now.bytes.now) && every link_ok (entries_of links.now.of links.now.bytes.now)) }
{
    links.ascending() && links_allowed(links)
}

// Whether the keys of each section ascend, and each deletion and each link is allowed.
fn sections_fine(held: &Entries, deletions: &Entries, links: &Entries) -> bool
    requires { (deletions.now.of.size ≡ 11) × (links.now.of.size ≡ 256) }
    ensures { result ≡ ((ascends (key_of_entry deletions.now.of) 0 (entries_of deletions.now.of deletions.now.bytes.now) && ascends (key_of_entry held.now.of) 0 (entries_of held.now.of held.now.bytes.now)) && every deletion_ok (entries_of deletions.now.of deletions.now.bytes.now) && (ascends (key_of_entry links.now.of) 0 (entries_of links.now.of links.now.bytes.now) && every link_ok (entries_of links.now.of links.now.bytes.now))) }
{
    deletions.ascending() && held.ascending() && deletions_allowed(deletions) && links_fine(links)
}

// Whether the pair of the i-th held line, which has no deletion, counts as one more: None where the line is not acceptable or not above
// its pair's deletion, whose place is j.
fn held_weight(held: &Entries, i: usize, deletions: &Entries, j: usize) -> Option<usize>
    requires { (held.now.of.size ≡ 80) × (key_of_entry held.now.of ≡ key) × (deletions.now.of.size ≡ 11) × (key_of_entry deletions.now.of ≡ deletion_key) × (i < held.now.of.count) × AscFrom deletion_key 0 (entries_of deletions.now.of deletions.now.bytes.now) × (j ≡ below deletion_key (key (get_or (entries_of held.now.of held.now.bytes.now) i [])) (entries_of deletions.now.of deletions.now.bytes.now)) }
    ensures { (result ≡ pick (held_ok (entries_of deletions.now.of deletions.now.bytes.now) (get_or (entries_of held.now.of held.now.bytes.now) i [])) (Some (length (only_held (entries_of deletions.now.of deletions.now.bytes.now) (get_or (entries_of held.now.of held.now.bytes.now) i [] ∷ [])))) None) × ((t : ℕ) → result ≡ Some t → t ≤ 1) }
{
    if !is_event(held.entry(i)) {
        return None;
    }
    match deletions.met(j, held.key_of(i)) {
        Err(_) => Some(1),
        Ok(k) => {
            if deletions.entry_byte(k, 10) < held.entry_byte(i, 12) {
                Some(0)
            } else {
                None
            }
        }
    }
}

// How many held lines have no deletion, where each is acceptable and above its pair's. The deletions are walked beside the held lines.
#[inline(never)]
fn only_held(held: &Entries, deletions: &Entries) -> Option<usize>
    requires { (held.now.of.size ≡ 80) × (key_of_entry held.now.of ≡ key) × (deletions.now.of.size ≡ 11) × (key_of_entry deletions.now.of ≡ deletion_key) × (held.now.of.count ≤ 512) × AscFrom key 0 (entries_of held.now.of held.now.bytes.now) × AscFrom deletion_key 0 (entries_of deletions.now.of deletions.now.bytes.now) }
    ensures { (result ≡ pick (every (held_ok (entries_of deletions.now.of deletions.now.bytes.now)) (entries_of held.now.of held.now.bytes.now)) (Some (length (only_held (entries_of deletions.now.of deletions.now.bytes.now) (entries_of held.now.of held.now.bytes.now)))) None) × ((k : ℕ) → result ≡ Some k → k ≤ 512) }
{
    let mut k = 0;
    let mut j = 0;
    for i in 0..held.of.count {
        j = deletions.advance(j, held.key_of(i));
        let t = held_weight(held, i, deletions, j)?;
        k += t;
    }
    Some(k)
}

// How many pairs a room names, where it is in order.
pub fn named_pairs(s: &[u8]) -> Option<usize>
    requires { length s.now ≡ room_size }
    ensures { result ≡ pick (is_in_order s.now) (Some (named (contents s.now))) None }
{
    let held = held_in(s);
    if PAIRS < held.count {
        return None;
    }
    let deletions = deletions_in(s, held);
    if PAIRS < deletions.count {
        return None;
    }
    let links = links_in(s, deletions);
    if LINKS < links.count {
        return None;
    }
    let used = end_of(s, links);
    let held = Entries { bytes: s, of: held };
    let deletions = Entries {
        bytes: s,
        of: deletions,
    };
    let links = Entries {
        bytes: s,
        of: links,
    };
    if !sections_fine(&held, &deletions, &links) {
        return None;
    }
    let named = deletions.of.count + only_held(&held, &deletions)?;
    if named <= PAIRS && zeros(&s[used..]) {
        Some(named)
    } else {
        None
    }
}

// Whether any bytes are a room in order.
pub fn check_order(room: &[u8]) -> Result<(), Reason>
    ensures { result ≡ order_of room.now }
{
    if room.len() < ROOM {
        return Err(Reason::Short);
    }
    match named_pairs(&room[..ROOM]) {
        Some(_) => Ok(()),
        None => Err(Reason::Disorder),
    }
}

// A line, taken into any room: its answer, and the room after it.
pub fn take_line(room: &mut [u8], line: &[u8]) -> Result<Effect, Refusal>
    ensures { (result ≡ call_of room.old line.now) × (room.new ≡ room_after room.old line.now) }
{
    if room.len() < ROOM {
        return Err(Reason::Short.at(0));
    }
    let Some(named) = named_pairs(&room[..ROOM]) else {
        return Err(Reason::Disorder.at(0));
    };
    take_ordered(room, named, line).call
}
