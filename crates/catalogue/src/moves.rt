// An entry put into a section of a room, or taken out of it.
ghost use Rattle.std.specs.Prelude.{◌≡◌, ◌+◌, ◌≤◌, ◌<◌, length};
ghost use Rattle.catalogue.specs.Entries.{Inside, IsPlaceOf, RoomFor};
ghost use Rattle.catalogue.specs.Places.{end_of};
ghost use Rattle.catalogue.specs.Moves.{put_in, taken_out};

use super::section::{Entries, Section};
use super::splice::{copy_in, cut, set_count, splice};

// Puts an entry where a search says: over the one that has its key, or before the next one. The sections end at `used`.
pub fn put(room: &mut [u8], of: Section, used: usize, seek: Result<usize, usize>, entry: &[u8])
    requires { Inside of room.old × (end_of of ≤ used) × RoomFor seek (used + length entry.now) (length room.old) × (of.count < 65535) × (length entry.now ≡ of.size) × IsPlaceOf seek of.count }
    ensures { room.new ≡ put_in room.old of used seek entry.now }
{
    match seek {
        Ok(i) => {
            let at = Entries { bytes: room, of }.entry_at(i);
            copy_in(room, at, entry);
        }
        Err(i) => {
            let at = Entries { bytes: room, of }.entry_at(i);
            splice(room, at, used, entry);
            set_count(room, of.at, of.count + 1);
        }
    }
}

// Takes the i-th entry out; zeros follow.
pub fn take_out(room: &mut [u8], of: Section, used: usize, i: usize)
    requires { Inside of room.old × (end_of of ≤ used) × (used ≤ length room.old) × (of.count < 65536) × (i < of.count) }
    ensures { room.new ≡ taken_out room.old of used i }
{
    let at = Entries { bytes: room, of }.entry_at(i);
    cut(room, at, used, of.size);
    set_count(room, of.at, of.count - 1);
}
