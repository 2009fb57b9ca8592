// A line taken into a room that is in order: what was decided is done.
ghost use Rattle.std.specs.Prelude.{◌≡◌, ◌++◌, ◌≤◌, length, drop};
ghost use Rattle.catalogue.specs.Answers.{answered};
ghost use Rattle.catalogue.specs.Line.{link, kind, deletion_key, deletion as deletion_of};
ghost use Rattle.catalogue.specs.Assoc.{put as put_in};
ghost use Rattle.catalogue.specs.Catalogue.{named as named_of, with_deletions};
ghost use Rattle.catalogue.specs.Taking.{deed_of};
ghost use Rattle.catalogue.specs.Room.{room_size, encode, contents, room_after};
ghost use Rattle.catalogue.specs.Ordered.{Ordered};
ghost use Rattle.catalogue.specs.Places.{end_of, deletions_in, links_in};
ghost use Rattle.catalogue.specs.Findings.{notice_kind, Known, Notable, one_more_named, named_after, Took};

use super::Effect;
use super::decide::{Deed, Findings, Notice, decide, limited, look_both};
use super::key::triple_at;
use super::link::{limited_link, link_entry, over_link, store_link};
use super::moves::{put, take_out};
use super::room::{deletions_in, end_of, held_in, links_in};
use super::section::{Entries, Section};
use columns::Refusal;
use formats::cube::{Parts, read_line};

// What a line taken into a room in order answers, and how many pairs are named after it.
#[derive(Clone, Copy)]
pub struct Receipt {
    pub call: Result<Effect, Refusal>,
    pub named: usize,
}

// A deletion's bytes: the line's source and identifier, and a version.
fn deletion(line: &[u8], v: u8) -> [u8; 11]
    requires { 13 ≤ length line.now }
    ensures { result ≡ deletion_of line.now v }
{
    [
        line[10], line[11], line[2], line[3], line[4], line[5], line[6], line[7], line[8], line[9],
        v,
    ]
}

// Where the sections end, behind the deletions.
fn used_in(room: &[u8], deletions: Section) -> usize
    requires { Ordered room.now × (deletions ≡ deletions_in room.now) }
    ensures { result ≡ end_of (links_in room.now) }
{
    end_of(room, links_in(room, deletions))
}

// The pair's deletion becomes a version; `seek` is its place among the deletions.
fn note(room: &mut [u8], deletions: Section, seek: Result<usize, usize>, v: u8, line: &[u8])
    requires { Ordered room.old × (deletions ≡ deletions_in room.old) × Notable room.old line.now v seek }
    ensures { room.new ≡ encode (with_deletions (contents room.old) (put_in deletion_key (deletion_of line.now v) (contents room.old).deletions)) ++ drop room_size room.old }
{
    let used = used_in(room, deletions);
    let d = deletion(line, v);
    put(room, deletions, used, seek, &d);
}

// The pair's held line goes, and its deletion becomes a version. The room between the two is in order.
fn wipe(room: &mut [u8], f: Findings, v: u8, line: &[u8])
    requires { Ordered room.old × Known room.old line.now f × (deed_of (contents room.old) line.now ≡ Deed.Wipe v) }
    ensures { room.new ≡ room_after room.old line.now }
{
    let Ok(i) = f.in_held else {
        return;
    };
    let used = used_in(room, f.deletions);
    take_out(room, f.held, used, i);
    let rest = deletions_in(room, held_in(room));
    note(room, rest, f.in_deletions, v, line);
}

// Does what was decided of a line about a pair.
fn carry_out(room: &mut [u8], f: Findings, deed: Deed<Effect>, line: &[u8])
    requires { Ordered room.old × Known room.old line.now f × (deed ≡ deed_of (contents room.old) line.now) × (kind line.now ≡ link → ⊥) }
    ensures { room.new ≡ room_after room.old line.now }
{
    match deed {
        Deed::Leave(_) => {}
        Deed::Hold(_) => {
            let used = used_in(room, f.deletions);
            put(room, f.held, used, f.in_held, line);
        }
        Deed::Note(v) => note(room, f.deletions, f.in_deletions, v, line),
        Deed::Wipe(v) => wipe(room, f, v, line),
        Deed::Link(_) => {}
    }
}

// What is answered for a deed.
fn answer_of(deed: Deed<Effect>) -> Result<Effect, Refusal>
    ensures { result ≡ answered deed }
{
    match deed {
        Deed::Leave(call) => call,
        Deed::Hold(effect) | Deed::Link(effect) => Ok(effect),
        Deed::Note(_) => Ok(Effect::Noted),
        Deed::Wipe(_) => Ok(Effect::Removed),
    }
}

// One pair more where it was in no section.
fn one_more(
    in_held: Result<usize, usize>,
    in_deletions: Result<usize, usize>,
    named: usize,
) -> usize
    requires { named ≤ 512 }
    ensures { result ≡ one_more_named in_held in_deletions named }
{
    match (in_held, in_deletions) {
        (Err(_), Err(_)) => named + 1,
        _ => named,
    }
}

// How many pairs are named after a deed.
fn named_after(
    deed: Deed<Effect>,
    in_held: Result<usize, usize>,
    in_deletions: Result<usize, usize>,
    named: usize,
) -> usize
    requires { named ≤ 512 }
    ensures { result ≡ named_after deed in_held in_deletions named }
{
    match deed {
        Deed::Leave(_) | Deed::Link(_) => named,
        Deed::Hold(_) | Deed::Note(_) | Deed::Wipe(_) => one_more(in_held, in_deletions, named),
    }
}

// An acceptable line about a pair, taken into a room in order that names so many pairs.
fn take_notice(room: &mut [u8], named: usize, notice: Notice, line: &[u8]) -> Receipt
    requires { Ordered room.old × (named ≡ named_of (contents room.old)) × (kind line.now ≡ notice_kind notice) }
    ensures { Took room.old line.now room.new result }
{
    let f = look_both(room, notice, line);
    let deed = limited(
        named,
        f.in_deletions,
        f.in_held,
        decide(room, f, notice, line),
    );
    carry_out(room, f, deed, line);
    Receipt {
        call: answer_of(deed),
        named: named_after(deed, f.in_held, f.in_deletions, named),
    }
}

// A link, taken into a room in order; the pairs named stay.
fn take_link(room: &mut [u8], named: usize, line: &[u8]) -> Receipt
    requires { Ordered room.old × (named ≡ named_of (contents room.old)) × (kind line.now ≡ link) }
    ensures { Took room.old line.now room.new result }
{
    let of = links_in(room, deletions_in(room, held_in(room)));
    let links = Entries { bytes: room, of };
    let entry = link_entry(line);
    let seek = links.look(triple_at(&entry, 11, 3));
    let deed = limited_link(of.count, seek, over_link(&links, seek, &entry));
    store_link(room, of, seek, deed, line, &entry);
    Receipt {
        call: answer_of(deed),
        named,
    }
}

// A line, taken into a room in order, which stays in order. No whole-room check is made; the pairs named are handed on.
pub fn take_ordered(room: &mut [u8], named: usize, line: &[u8]) -> Receipt
    requires { Ordered room.old × (named ≡ named_of (contents room.old)) }
    ensures { Took room.old line.now room.new result }
{
    let mut flags = [0u8; 19];
    let mut values = [0i64; 19];
    let mut text = [0u8; 96];
    let read = read_line(line, &mut flags, &mut values, &mut text);
    let Ok(parts) = read else {
        return Receipt {
            call: Err(read.unwrap_err()),
            named,
        };
    };
    match parts {
        Parts::Link { .. } => take_link(room, named, line),
        Parts::Event => take_notice(room, named, Notice::Event, line),
        Parts::Delete { .. } if line[12] == super::BLANK => {
            take_notice(room, named, Notice::Blank, line)
        }
        Parts::Delete { .. } => take_notice(room, named, Notice::Delete, line),
    }
}
