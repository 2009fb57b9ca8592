// A pair looked up by halving. Of the room only the count of the held lines and the entries examined are read.
ghost use Rattle.std.specs.Prelude.{◌≡◌, ◌-◌, ◌≤◌};
ghost use Rattle.catalogue.specs.Keys.{pair_key, key_number};
ghost use Rattle.catalogue.specs.Entries.{Inside};
ghost use Rattle.catalogue.specs.Places.{held_in};
ghost use Rattle.catalogue.specs.Halving.{halving, binary_digits, Stopped};
ghost use Rattle.catalogue.specs.QuickLookUp.{held_count, held_key, quick_look_up, examined_in, Searchable};

use super::key::{Key, before, equal, word2, word8};
use super::room::held_in;
use super::section::Entries;
use super::{PAIRS, ROOM, Searched};
use columns::Reason;

// The width of a count.
const WIDTH: u32 = 64;

// The place of a pair's words among the held lines from `first` up to `end`, or 512; `left` says how many entries may still be examined.
// The room is behind a reference: a call on half the stretch then hands on numbers alone, and the compiler makes a loop of the calls.
// 512 and no `Option`: with one a look-up takes 77 ns in place of 60 (bench/quick.c).
fn search(
    room: &&[u8],
    source: u64,
    identifier: u64,
    first: usize,
    end: usize,
    left: &mut usize,
) -> usize
    requires { Searchable room.now.now first end left.old }
    ensures { Stopped (halving (held_key room.now.now) (key_number (pair_key source identifier)) (end - first) first end) result left.old left.new }
{
    if end <= first {
        return PAIRS;
    }
    let middle = (first + end) / 2;
    *left -= 1;
    let held = Entries {
        bytes: *room,
        of: held_in(*room),
    };
    let here = held.key_of(middle);
    let key = Key {
        source,
        identifier,
        high: 0,
        low: 0,
    };
    if equal(here, key) {
        return middle;
    }
    if before(here, key) {
        return search(room, source, identifier, middle + 1, end, left);
    }
    search(room, source, identifier, first, middle, left)
}

// A pair's words among all held lines, whatever they are. No more of them are examined than their count has binary digits.
fn search_all(room: &[u8], count: usize, source: u64, identifier: u64) -> Searched
    requires { Inside (held_in room.now) room.now × (count ≡ held_count room.now) × (count ≤ 512) }
    ensures { (result ≡ halving (held_key room.now) (key_number (pair_key source identifier)) count 0 count) × (result.examined ≤ binary_digits count) }
{
    let most = (WIDTH - usize::leading_zeros(count)) as usize;
    let mut left = most;
    let place = search(&room, source, identifier, 0, count, &mut left);
    let examined = most - left;
    Searched {
        place: if place < PAIRS { Some(place) } else { None },
        examined,
    }
}

// The held line of a source and an identifier, by its place, in a room of any contents.
pub fn quick_look_up(room: &[u8], source: &[u8], identifier: &[u8]) -> Result<Searched, Reason>
    ensures { (result ≡ quick_look_up room.now source.now identifier.now) × (examined_in result ≤ binary_digits (held_count room.now)) }
{
    if room.len() < ROOM {
        return Err(Reason::Short);
    }
    let held = held_in(room);
    let count = held.count;
    if PAIRS < count {
        return Err(Reason::Disorder);
    }
    if source.len() != 2 {
        return Err(Reason::Length);
    }
    if identifier.len() != 8 {
        return Err(Reason::Length);
    }
    Ok(search_all(room, count, word2(source, 0), word8(identifier, 0)))
}
