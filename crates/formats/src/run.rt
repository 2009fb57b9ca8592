// A run of lines by their first letter, read: whether each is accepted, and how many there are of each kind.
ghost use Rattle.std.specs.Prelude.{◌≡◌, ℕ, ◌∷◌, ◌+◌, ◌*◌, ◌≤◌, ◌<◌, length, get_or, set};
ghost use Rattle.columns.specs.Table.{over};
ghost use Rattle.formats.specs.Lines.{lines_of};
ghost use Rattle.formats.specs.Record.{words_by};
ghost use Rattle.formats.specs.Lettered.{lettered_of};
ghost use Rattle.formats.specs.declared.lettered.LineKind.{LineKind};
ghost use Rattle.formats.specs.Run.{RunRead};
ghost use Rattle.formats.specs.RunSteps.{no_kind, step_of, Empty, Judged};

use super::LineRefusal;
use super::block_reader::line_from;
use super::lettered::{Kinds, LineKind, START, judge_placed};
use columns::word::write_word;
use columns::{Reason, Refusal};

// A line after one of rank `before`.
fn line_step(kinds: Kinds<'_>, line: &[u8], before: u8) -> Result<LineKind, Refusal>
    ensures { result ≡ step_of (kinds.entry.opener ∷ kinds.entry.others.now) before line.now }
{
    let kind = kinds.lead_of(line)?;
    judge_placed(kind.kind, line, before <= kind.after)?;
    Ok(kind)
}

// One more line that begins with the byte `b`.
fn count_one(tally: &mut [usize], b: u8)
    requires { (length tally.old ≡ 256) × (get_or tally.old b 0 ≤ 65536) }
    ensures { tally.new ≡ set tally.old b (get_or tally.old b 0 + 1) }
{
    tally[b as usize] += 1;
}

// The lines of a run, at most 65,536 bytes, and how many begin with each byte, added to `tally`: 0 events, or the refusal of the first
// refused line.
fn judge_lines(kinds: Kinds<'_>, run: &[u8], tally: &mut [usize]) -> Result<usize, LineRefusal>
    requires { (length run.now ≤ 65536) × Empty tally.old }
    ensures { Judged (kinds.entry.opener ∷ kinds.entry.others.now) (lines_of run.now) result tally.new }
{
    let mut at = 0;
    let mut line = 1;
    let mut before = START;
    while let Some(found) = line_from(run, at) {
        match line_step(kinds, &run[found.start..found.end], before) {
            Err(refusal) => return Err(LineRefusal::on_line(refusal, line)),
            Ok(kind) => {
                count_one(tally, kind.letter);
                before = kind.rank;
                at = found.next;
                line += 1;
            }
        }
    }
    Ok(0)
}

// The number of each kind's letter in a tally, over the first bytes of `out`.
fn put_counts(kinds: Kinds<'_>, tally: &[usize; 256], out: &mut [u8])
    requires { 2 * (1 + length kinds.others.now) ≤ length out.old }
    ensures counts { out.new ≡ over (words_by 2 (λ (k : LineKind). get_or tally.now k.letter 0) (kinds.entry.opener ∷ kinds.entry.others.now)) out.old }
    ensures letters { (i : ℕ) → i < length kinds.entry.others.now → (get_or kinds.entry.others.now i no_kind).letter < 256 }
{
    write_word(&mut out[0..2], tally[kinds.opener.letter as usize] as u64);
    for (i, kind) in kinds.others.iter().enumerate() {
        let at = 2 * i + 2;
        write_word(&mut out[at..at + 2], tally[kind.letter as usize] as u64);
    }
}

// A run of any bytes and any length, and how many lines there are of each kind, over the first bytes of `counts`. Nothing is changed
// where it is refused.
pub fn read_run(kinds: Kinds<'_>, run: &[u8], counts: &mut [u8]) -> Result<usize, LineRefusal>
    ensures { RunRead (lettered_of kinds.entry.opener kinds.entry.others.now) run.now result counts.old counts.new }
{
    if counts.len() / 2 <= kinds.others.len() {
        return Err(LineRefusal::on_line(Reason::Short.at(0), 0));
    }
    if 65536 < run.len() {
        return Err(LineRefusal::on_line(Reason::Length.at(0), 0));
    }
    let mut tally = [0usize; 256];
    judge_lines(kinds, run, &mut tally)?;
    put_counts(kinds, &tally, counts);
    Ok(tally[kinds.opener.letter as usize])
}
