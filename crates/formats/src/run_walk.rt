// A run of lines by their first letter walked line by line, in one pass: each call is told what the call before it met.
ghost use Rattle.std.specs.Prelude.{◌≡◌, [], ◌∷◌, ◌≤◌};
ghost use Rattle.formats.specs.BlockWalk.{nothing, no_line as none_there};
ghost use Rattle.formats.specs.Lettered.{Lettered, kinds_of, lettered_of, leading};
ghost use Rattle.formats.specs.RunWalk.{told_as, told_at, first_told, next_told};

use super::block_walk::{BlockLine, NO_LINE, counted_line, no_line};
use super::lettered::{Kinds, LineKind};
use columns::Reason;

// A line by its first letter, after some events, with its end and the place after it.
fn told(kinds: Kinds<'_>, line: &[u8], events: usize, end: usize, next: usize) -> BlockLine
    requires { events ≤ 70000 }
    ensures { result ≡ told_as (lettered_of kinds.entry.opener kinds.entry.others.now) (leading (kinds.entry.opener ∷ kinds.entry.others.now) line.now) events end next }
{
    match kinds.lead_of(line) {
        Err(refusal) => no_line(u8::from(refusal.reason)),
        Ok(kind) => {
            let number = if kind.letter == kinds.opener.letter {
                events + 1
            } else {
                events
            };
            BlockLine {
                kind: kind.letter,
                number,
                end,
                next,
            }
        }
    }
}

// The line at a place, after some events.
fn told_at(kinds: Kinds<'_>, run: &[u8], at: usize, events: usize) -> BlockLine
    ensures { result ≡ told_at (lettered_of kinds.entry.opener kinds.entry.others.now) run.now at events }
{
    match counted_line(run, at, events) {
        None => no_line(NO_LINE),
        Some(line) => told(
            kinds,
            &run[line.start..line.end],
            events,
            line.end,
            line.next,
        ),
    }
}

// The first line of a run, or its refusal.
pub fn first_in(kinds: Kinds<'_>, run: &[u8]) -> BlockLine
    ensures { result ≡ first_told (lettered_of kinds.entry.opener kinds.entry.others.now) run.now }
{
    if 65536 < run.len() {
        return no_line(u8::from(Reason::Length));
    }
    told_at(kinds, run, 0, 0)
}

// The line after one that was met.
pub fn next_in(kinds: Kinds<'_>, run: &[u8], before: BlockLine) -> BlockLine
    ensures { result ≡ next_told (lettered_of kinds.entry.opener kinds.entry.others.now) run.now before }
{
    if 65536 < run.len() {
        return no_line(u8::from(Reason::Length));
    }
    match kinds.named(before.kind) {
        None => no_line(NO_LINE),
        Some(_) => told_at(kinds, run, before.next, before.number),
    }
}

// The first line of a run, or its refusal, by kinds in any number, of which the first opens an event; of no kinds there is no line.
pub fn first_told(kinds: &[LineKind], run: &[u8]) -> BlockLine
    ensures some { (L : Lettered) → kinds.now ≡ kinds_of L → result ≡ first_told L run.now }
    ensures none { kinds.now ≡ [] → result ≡ nothing none_there }
{
    match Kinds::of(kinds) {
        None => no_line(NO_LINE),
        Some(kinds) => first_in(kinds, run),
    }
}

// The line after one that was met, likewise.
pub fn next_told(kinds: &[LineKind], run: &[u8], before: BlockLine) -> BlockLine
    ensures some { (L : Lettered) → kinds.now ≡ kinds_of L → result ≡ next_told L run.now before }
    ensures none { kinds.now ≡ [] → result ≡ nothing none_there }
{
    match Kinds::of(kinds) {
        None => no_line(NO_LINE),
        Some(kinds) => next_in(kinds, run, before),
    }
}
