// What a line does to a room in order: what is found of its pair, and what that decides.
ghost use Rattle.std.specs.Prelude.{◌≡◌, true, List, ℕ, ◌≤◌, length};
ghost use Rattle.catalogue.specs.Line.{kind};
ghost use Rattle.catalogue.specs.Taking.{covered as covered_by, over_held, over_deleted, over_blank, decide as decide_by, declined as declined_by, limited as limited_to};
ghost use Rattle.catalogue.specs.Ordered.{Ordered};
ghost use Rattle.catalogue.specs.Entries.{entries_of, entry_of, IsPlaceOf};
ghost use Rattle.catalogue.specs.Findings.{notice_kind, IsFound, Placed, Known};

use super::key::key_at;
use super::room::{deletions_in, held_in};
use super::section::{Entries, Section};
use super::{Effect, PAIRS};
use columns::bytes::same;
use columns::{Reason, Refusal};

// What a line does: nothing, with an answer; the line is held, with an answer; its pair's deletion becomes a version; its held line goes
// besides; the line is stored among the links, with an answer. E is what an answer says was done: `Effect`, and any other for what bars a
// new pair or a new link, which never looks at it.
#[derive(Clone, Copy)]
pub enum Deed<E> {
    Leave(Result<E, Refusal>),
    Hold(E),
    Note(u8),
    Wipe(u8),
    Link(E),
}

// An acceptable line about a pair: an event, a delete with a version, a delete with a blank one.
#[derive(Clone, Copy)]
pub enum Notice {
    Event,
    Delete,
    Blank,
}

// The sections of a room, and where a line's pair stands in each.
#[derive(Clone, Copy)]
pub struct Findings {
    pub held: Section,
    pub deletions: Section,
    pub in_held: Result<usize, usize>,
    pub in_deletions: Result<usize, usize>,
}

// Whether the deletions need no look.
fn skips(notice: Notice, in_held: Result<usize, usize>) -> bool
    ensures { result ≡ true → (notice ≡ Notice.Event) × IsFound in_held }
{
    matches!((notice, in_held), (Notice::Event, Ok(_)))
}

// Looks for a line's pair. A held version is above its deletion, so an event whose pair is held needs no look at the deletions.
pub fn look_both(room: &[u8], notice: Notice, line: &[u8]) -> Findings
    requires { Ordered room.now × (kind line.now ≡ notice_kind notice) }
    ensures { Known room.now line.now result }
{
    let held = held_in(room);
    let deletions = deletions_in(room, held);
    let key = key_at(line, 10, 2, false);
    let in_held = Entries {
        bytes: room,
        of: held,
    }
    .look(key);
    let in_deletions = if skips(notice, in_held) {
        Err(0)
    } else {
        Entries {
            bytes: room,
            of: deletions,
        }
        .look(key)
    };
    Findings {
        held,
        deletions,
        in_held,
        in_deletions,
    }
}

// Whether an entry of the pair's deletions covers a version.
#[tactic(auto, unfolding(crate::specs::Taking::covered, crate::specs::Line::deletion_version))]
fn covered(deletions: &Entries, seek: Result<usize, usize>, v: u8) -> bool
    requires { (deletions.now.of.size ≡ 11) × IsPlaceOf seek deletions.now.of.count }
    ensures { result ≡ covered_by (entry_of (entries_of deletions.now.of deletions.now.bytes.now) seek) v }
{
    match seek {
        Ok(j) => v <= deletions.entry_byte(j, 10),
        Err(_) => false,
    }
}

// An event that no deletion covers.
#[tactic(auto, unfolding(crate::specs::Taking::over_held, crate::specs::Line::version))]
fn over_held(held: &Entries, seek: Result<usize, usize>, line: &[u8]) -> Deed<Effect>
    requires { (held.now.of.size ≡ 80) × IsPlaceOf seek held.now.of.count × (13 ≤ length line.now) }
    ensures { result ≡ over_held line.now (entry_of (entries_of held.now.of held.now.bytes.now) seek) }
{
    match seek {
        Err(_) => Deed::Hold(Effect::Stored),
        Ok(i) => {
            let entry = held.entry(i);
            if line[12] < entry[12] {
                Deed::Leave(Ok(Effect::Outdated))
            } else if same(line, entry) {
                Deed::Leave(Ok(Effect::Repeated))
            } else {
                Deed::Hold(Effect::Replaced)
            }
        }
    }
}

// A delete of a version that no deletion covers.
#[tactic(auto, unfolding(crate::specs::Taking::over_deleted, crate::specs::Line::version))]
fn over_deleted(held: &Entries, seek: Result<usize, usize>, v: u8) -> Deed<Effect>
    requires { (held.now.of.size ≡ 80) × IsPlaceOf seek held.now.of.count }
    ensures { result ≡ over_deleted v (entry_of (entries_of held.now.of held.now.bytes.now) seek) }
{
    match seek {
        Err(_) => Deed::Note(v),
        Ok(i) => {
            if held.entry_byte(i, 12) <= v {
                Deed::Wipe(v)
            } else {
                Deed::Note(v)
            }
        }
    }
}

// A delete with a blank version.
#[tactic(auto, unfolding(crate::specs::Taking::over_blank, crate::specs::Line::version))]
fn over_blank(held: &Entries, seek: Result<usize, usize>) -> Deed<Effect>
    requires { (held.now.of.size ≡ 80) × IsPlaceOf seek held.now.of.count }
    ensures { result ≡ over_blank (entry_of (entries_of held.now.of held.now.bytes.now) seek) }
{
    match seek {
        Err(_) => Deed::Leave(Ok(Effect::NothingHeld)),
        Ok(i) => Deed::Wipe(held.entry_byte(i, 12)),
    }
}

// What a line does, by what was found.
#[tactic(auto, unfolding(crate::specs::Taking::decide, crate::specs::Line::version))]
pub fn decide(room: &[u8], f: Findings, notice: Notice, line: &[u8]) -> Deed<Effect>
    requires { Placed room.now f × (13 ≤ length line.now) }
    ensures { result ≡ decide_by notice line.now (entry_of (entries_of f.deletions room.now) f.in_deletions) (entry_of (entries_of f.held room.now) f.in_held) }
{
    let version = line[12];
    let held = Entries {
        bytes: room,
        of: f.held,
    };
    let deletions = Entries {
        bytes: room,
        of: f.deletions,
    };
    match notice {
        Notice::Blank => over_blank(&held, f.in_held),
        Notice::Event | Notice::Delete if covered(&deletions, f.in_deletions, version) => {
            Deed::Leave(Ok(Effect::Outdated))
        }
        Notice::Event => over_held(&held, f.in_held, line),
        Notice::Delete => over_deleted(&held, f.in_held, version),
    }
}

// A new pair has no room: nothing is done, and a line that would do something is answered so.
#[tactic(auto, unfolding(crate::specs::Taking::declined))]
fn declined<E: Copy>(deed: Deed<E>) -> Deed<E>
    ensures { result ≡ declined_by deed }
{
    match deed {
        Deed::Leave(_) => deed,
        Deed::Hold(_) | Deed::Note(_) | Deed::Wipe(_) | Deed::Link(_) => {
            Deed::Leave(Err(Reason::Full.at(0)))
        },
    }
}

// A new pair needs room.
#[tactic(auto, unfolding(crate::specs::Taking::limited))]
pub fn limited<E: Copy>(
    named: usize,
    in_deletions: Result<usize, usize>,
    in_held: Result<usize, usize>,
    deed: Deed<E>,
) -> Deed<E>
    ensures { (ds hs : List (List ℕ)) → result ≡ limited_to named (entry_of ds in_deletions) (entry_of hs in_held) deed }
{
    match (in_deletions, in_held) {
        (Err(_), Err(_)) if PAIRS <= named => declined(deed),
        _ => deed,
    }
}
