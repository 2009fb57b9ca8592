// The seven Calnet cards: their tables as lines by their first letter, and the calls on a card and on a run of cards.
ghost use Rattle.std.specs.Prelude.{◌≡◌, length};
ghost use Rattle.formats.specs.Record.{Replied};
ghost use Rattle.formats.specs.BlockWriting.{RepliedFrom};
ghost use Rattle.formats.specs.Lettered.{kinds_of, read_lettered_into, write_lettered};
ghost use Rattle.formats.specs.Cards.{cards, card_record};
ghost use Rattle.formats.specs.Run.{RunRead};
ghost use Rattle.formats.specs.RunWalk.{first_told, next_told};
ghost use Rattle.formats.specs.RunWriting.{lettered_call};

use super::LineRefusal;
use super::block_walk::BlockLine;
use super::format::{CARD_A, CARD_E, CARD_I, CARD_L, CARD_M, CARD_P, CARD_R};
use super::lettered::{Kinds, LineKind, START, read_lettered_into};
use super::run::read_run;
use super::run_walk::{first_told, next_told};
use columns::Refusal;

// The cards, by their letters. All have one rank. The I card may follow what stands before the first line, the others only a card.
const I: LineKind = LineKind {
    letter: b'I',
    kind: CARD_I,
    rank: 0,
    after: START,
};

const L: LineKind = LineKind {
    letter: b'L',
    kind: CARD_L,
    rank: 0,
    after: 0,
};

const E: LineKind = LineKind {
    letter: b'E',
    kind: CARD_E,
    rank: 0,
    after: 0,
};

const M: LineKind = LineKind {
    letter: b'M',
    kind: CARD_M,
    rank: 0,
    after: 0,
};

const P: LineKind = LineKind {
    letter: b'P',
    kind: CARD_P,
    rank: 0,
    after: 0,
};

const A: LineKind = LineKind {
    letter: b'A',
    kind: CARD_A,
    rank: 0,
    after: 0,
};

const R: LineKind = LineKind {
    letter: b'R',
    kind: CARD_R,
    rank: 0,
    after: 0,
};

const ALL: [LineKind; 7] = [I, L, E, M, P, A, R];

const CARDS: Kinds<'static> = Kinds {
    opener: I,
    others: &[L, E, M, P, A, R],
};

// The bytes of the largest record.
const LARGEST: usize = 82;

// A card read into the record of its kind, over the first bytes of `out`. Nothing is changed where it is refused.
pub fn read_card(line: &[u8], out: &mut [u8]) -> Result<usize, Refusal>
    ensures { Replied (read_lettered_into (kinds_of cards) card_record line.now (length out.old)) result out.old out.new }
{
    read_lettered_into(&ALL, LARGEST, line, out)
}

// A card written from its record, over the first bytes of `out`. Nothing is changed where it is refused.
pub fn write_card(from: &[u8], out: &mut [u8]) -> Result<usize, Refusal>
    ensures { Replied (write_lettered cards from.now (length out.old)) result out.old out.new }
{
    CARDS.write_lettered(from, out)
}

// A card written from its record with a newline, from place `at` of `out` on; answers the place after it. Nothing is changed where it
// is refused.
pub fn write_card_record(from: &[u8], out: &mut [u8], at: usize) -> Result<usize, Refusal>
    ensures { RepliedFrom at (lettered_call cards from.now at (length out.old)) result out.old out.new }
{
    CARDS.write_lettered_record(from, out, at)
}

// A run of cards of any bytes and any length, and how many cards there are of each letter, over the first bytes of `counts`. Nothing is
// changed where it is refused.
pub fn read_cards(run: &[u8], counts: &mut [u8]) -> Result<usize, LineRefusal>
    ensures { RunRead cards run.now result counts.old counts.new }
{
    read_run(CARDS, run, counts)
}

// The first card of a run, or its refusal.
pub fn first_card(run: &[u8]) -> BlockLine
    ensures { result ≡ first_told cards run.now }
{
    first_told(&ALL, run)
}

// The card after one that was met.
pub fn next_card(run: &[u8], before: BlockLine) -> BlockLine
    ensures { result ≡ next_told cards run.now before }
{
    next_told(&ALL, run, before)
}
