// Lines by their first letter: the kinds of lines, which of them may come where, and a line alone read and written.
ghost use Rattle.std.specs.Prelude.{◌≡◌, [], ◌∷◌, ◌==◌, length, find, MatchOption};
ghost use Rattle.columns.specs.Answer.{refusal, bad_form};
ghost use Rattle.columns.specs.Table.{outcome_of};
ghost use Rattle.formats.specs.Record.{Replied};
ghost use Rattle.formats.specs.Format.{format_of};
ghost use Rattle.formats.specs.Lettered.{Lettered, kinds_of, lettered_of, leading, kind_in, read_placed, read_lettered_into, write_lettered};
ghost use Rattle.formats.specs.BlockWriting.{RepliedFrom};
ghost use Rattle.formats.specs.RunWriting.{lettered_call};
ghost use Rattle.formats.specs.RunSteps.{as_kind};
ghost use Rattle.formats.specs.declared.lettered.LineKind.{LineKind};

use super::block_writer::write_record;
use super::row::{judge_made, judge_row, read_row_into, write_row_from};
use columns::{Reason, Refusal};

// A kind of line: its letter; the number of its record's kind, by which its columns are found; its rank, and the highest rank of a
// line that it may follow.
#[derive(Clone, Copy)]
pub struct LineKind {
    pub letter: u8,
    pub kind: u8,
    pub rank: u8,
    pub after: u8,
}

// What stands before the first line: above every rank, so that only a kind that may follow it begins.
pub const START: u8 = 9;

// The kind whose lines open an event, and the others.
#[derive(Clone, Copy)]
pub struct Kinds<'a> {
    pub opener: LineKind,
    pub others: &'a [LineKind],
}

// The answer for a line of a kind, which may come where it stands or not.
pub fn judge_placed(kind: u8, line: &[u8], placed: bool) -> Result<(), Refusal>
    ensures { result ≡ outcome_of (read_placed placed (format_of kind).columns line.now) }
{
    if placed {
        return judge_row(kind, line);
    }
    judge_made(kind, line)?;
    Err(Reason::OutOfPlace.at(0))
}

// The first of some kinds that has a letter.
fn with_letter(kinds: &[LineKind], letter: u8) -> Option<LineKind>
    ensures { result ≡ find (λ (k : LineKind). letter == k.letter) kinds.now }
{
    kinds.iter().copied().find(|k| letter == k.letter)
}

// The first of some kinds whose records have a number.
fn with_number(kinds: &[LineKind], number: u8) -> Option<LineKind>
    ensures { result ≡ find (λ (k : LineKind). number == k.kind) kinds.now }
{
    kinds.iter().copied().find(|k| number == k.kind)
}

// The kind of a line by its first letter, of kinds in any number: 1 where it is empty, 3 where no kind has that letter.
pub fn lead_of(kinds: &[LineKind], line: &[u8]) -> Result<LineKind, Refusal>
    ensures { result ≡ as_kind (leading kinds.now line.now) }
{
    if line.len() == 0 {
        return Err(Reason::Length.at(0));
    }
    match with_letter(kinds, line[0]) {
        None => Err(Reason::Type.at(1)),
        Some(kind) => Ok(kind),
    }
}

// A line alone read into the record of its kind, over the first bytes of `out`, which has `most` bytes at least. Nothing is changed
// where it is refused.
pub fn read_lettered_into(
    kinds: &[LineKind],
    most: usize,
    line: &[u8],
    out: &mut [u8],
) -> Result<usize, Refusal>
    ensures { Replied (read_lettered_into kinds.now most line.now (length out.old)) result out.old out.new }
{
    if out.len() < most {
        return Err(Reason::Short.at(0));
    }
    read_row_into(lead_of(kinds, line)?.kind, line, out)
}

impl<'a> Kinds<'a> {
    // Some kinds, of which the first opens an event; none of none.
    pub fn of(kinds: &'a [LineKind]) -> Option<Kinds<'a>>
        ensures { MatchOption result (kinds.now ≡ []) (λ k. kinds.now ≡ k.opener ∷ k.others.now) }
    {
        let (opener, others) = kinds.split_first()?;
        Some(Kinds {
            opener: *opener,
            others,
        })
    }

    // The kind that a letter names.
    pub fn named(self, letter: u8) -> Option<LineKind>
        ensures { result ≡ find (λ (k : LineKind). letter == k.letter) (self.entry.opener ∷ self.entry.others.now) }
    {
        if letter == self.opener.letter {
            return Some(self.opener);
        }
        with_letter(self.others, letter)
    }

    // The kind of a line, as `lead_of` of all of them.
    pub fn lead_of(self, line: &[u8]) -> Result<LineKind, Refusal>
        ensures { result ≡ as_kind (leading (self.entry.opener ∷ self.entry.others.now) line.now) }
    {
        if line.len() == 0 {
            return Err(Reason::Length.at(0));
        }
        match self.named(line[0]) {
            None => Err(Reason::Type.at(1)),
            Some(kind) => Ok(kind),
        }
    }

    // The kind of a record by its first byte: the opener where that is none's.
    fn kind_in(self, from: &[u8]) -> LineKind
        ensures { result ≡ kind_in (lettered_of self.entry.opener self.entry.others.now) from.now }
    {
        let number = from.first().copied().unwrap_or(0);
        if number == self.opener.kind {
            return self.opener;
        }
        with_number(self.others, number).unwrap_or(self.opener)
    }

    // A line written from the record of its kind, over the first bytes of `out`. Nothing is changed where it is refused.
    pub fn write_lettered(self, from: &[u8], out: &mut [u8]) -> Result<usize, Refusal>
        ensures { Replied (write_lettered (lettered_of self.entry.opener self.entry.others.now) from.now (length out.old)) result out.old out.new }
    {
        write_row_from(self.kind_in(from).kind, from, out)
    }

    // The same with a newline, from place `at` of `out` on; answers the place after it.
    pub fn write_lettered_record(
        self,
        from: &[u8],
        out: &mut [u8],
        at: usize,
    ) -> Result<usize, Refusal>
        ensures { RepliedFrom at (lettered_call (lettered_of self.entry.opener self.entry.others.now) from.now at (length out.old)) result out.old out.new }
    {
        write_record(self.kind_in(from).kind, from, out, at)
    }
}

// A line written from the record of its kind, of kinds in any number, as `Kinds` does; of none, no bytes are a record. Nothing is changed
// where it is refused.
pub fn write_lettered(kinds: &[LineKind], from: &[u8], out: &mut [u8]) -> Result<usize, Refusal>
    ensures some { (L : Lettered) → kinds.now ≡ kinds_of L → Replied (write_lettered L from.now (length out.old)) result out.old out.new }
    ensures none { kinds.now ≡ [] → Replied (refusal bad_form 0) result out.old out.new }
{
    match Kinds::of(kinds) {
        Some(kinds) => kinds.write_lettered(from, out),
        None => Err(Reason::Form.at(0)),
    }
}

// The same with a newline, from place `at` of `out` on; answers the place after it.
pub fn write_lettered_record(
    kinds: &[LineKind],
    from: &[u8],
    out: &mut [u8],
    at: usize,
) -> Result<usize, Refusal>
    ensures some { (L : Lettered) → kinds.now ≡ kinds_of L → RepliedFrom at (lettered_call L from.now at (length out.old)) result out.old out.new }
    ensures none { kinds.now ≡ [] → RepliedFrom at (refusal bad_form 0) result out.old out.new }
{
    match Kinds::of(kinds) {
        Some(kinds) => kinds.write_lettered_record(from, out, at),
        None => Err(Reason::Form.at(0)),
    }
}
