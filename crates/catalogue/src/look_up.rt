// A pair looked up in a room.
ghost use Rattle.std.specs.Prelude.{◌≡◌, [], ◌++◌, length};
ghost use Rattle.catalogue.specs.Line.{key_of};
ghost use Rattle.catalogue.specs.Room.{contents};
ghost use Rattle.catalogue.specs.Ordered.{Ordered};
ghost use Rattle.catalogue.specs.Keys.{key_number};
ghost use Rattle.catalogue.specs.LookUp.{looked_in, look_up};

use super::ROOM;
use super::key::Key;
use super::order::named_pairs;
use super::room::held_in;
use super::section::Entries;
use columns::Reason;

// The key of a source and an identifier.
fn key_by(source: &[u8], identifier: &[u8]) -> Key
    requires { (length source.now ≡ 2) × (length identifier.now ≡ 8) }
    ensures { key_number result ≡ key_of (source.now ++ identifier.now) [] }
{
    Key {
        source: super::key::word2(source, 0),
        identifier: super::key::word8(identifier, 0),
        high: 0,
        low: 0,
    }
}

// The place of a key's held line in a room in order.
fn look_in(room: &[u8], key: Key) -> Option<usize>
    requires { Ordered room.now }
    ensures { result ≡ looked_in (contents room.now) (key_number key) }
{
    let held = Entries {
        bytes: room,
        of: held_in(room),
    };
    held.look(key).ok()
}

// The held line of a source and an identifier, by its place.
pub fn look_up(room: &[u8], source: &[u8], identifier: &[u8]) -> Result<Option<usize>, Reason>
    ensures { result ≡ look_up room.now source.now identifier.now }
{
    if room.len() < ROOM {
        return Err(Reason::Short);
    }
    if named_pairs(&room[..ROOM]).is_none() {
        return Err(Reason::Disorder);
    }
    if source.len() != 2 || identifier.len() != 8 {
        return Err(Reason::Length);
    }
    Ok(look_in(room, key_by(source, identifier)))
}
