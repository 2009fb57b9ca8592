// A desk: lines taken one by one into its room.
ghost use Rattle.std.specs.Prelude.{◌≡◌};
ghost use Rattle.catalogue.specs.Desk.{end_in, lines_at, Fed, Desks};

use super::order::take_line;

// How many lines were taken into a room, and how many of them were refused.
#[derive(Clone, Copy)]
pub struct Tally {
    pub lines: usize,
    pub refused: usize,
}

// What two desks count.
#[derive(Clone, Copy)]
pub struct Tallies {
    pub first: Tally,
    pub second: Tally,
}

// Where a line ends that starts at `start` in n bytes.
#[tactic(auto, unfolding(crate::specs::Desk::end_in))]
fn end_in(n: usize, start: usize, end: usize) -> usize
    ensures { result ≡ end_in n start end }
{
    if end < start {
        start
    } else if end <= n {
        end
    } else {
        n
    }
}

// Takes the lines of a list into a room: their bytes stand one after the other, each up to its end.
pub fn take_all(room: &mut [u8], bytes: &[u8], ends: &[usize]) -> Tally
    ensures { Fed room.old room.new (lines_at bytes.now ends.now) result }
{
    let mut start = 0;
    let mut refused = 0;
    for last in ends {
        let end = end_in(bytes.len(), start, *last);
        if take_line(room, &bytes[start..end]).is_err() {
            refused += 1;
        }
        start = end;
    }
    Tally {
        lines: ends.len(),
        refused,
    }
}

// Demand 3, two whole lists: `some` is taken into the first room, `others` into the second, each list by its bytes and its ends.
pub fn two_desks(
    first: &mut [u8],
    second: &mut [u8],
    some: &[u8],
    some_ends: &[usize],
    others: &[u8],
    other_ends: &[usize],
) -> Tallies
    ensures { Desks first.old second.old (lines_at some.now some_ends.now) (lines_at others.now other_ends.now) first.new second.new result }
{
    Tallies {
        first: take_all(first, some, some_ends),
        second: take_all(second, others, other_ends),
    }
}
