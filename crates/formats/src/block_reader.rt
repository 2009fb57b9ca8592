// The lines of a block, from a reader that holds the lent block and its place in it.
ghost use Rattle.std.specs.Prelude.{◌≡◌, ◌≤◌, length, IfSome};
ghost use Rattle.formats.specs.BlockReader.{line_at};

use super::lines::line_end;

// A line: its start, its end, and the place after its newline.
#[derive(Clone, Copy)]
pub struct Line {
    pub start: usize,
    pub end: usize,
    pub next: usize,
}

// A reader of a lent block, at a place in it.
#[derive(Clone, Copy)]
pub struct BlockReader<'a> {
    pub block: &'a [u8],
    pub at: usize,
}

// The line that starts at a place of a block; none at its end.
pub fn line_at(s: &[u8], at: usize) -> Option<Line>
    ensures found { result ≡ line_at s.now at }
    ensures within { IfSome result (λ line. (line.start ≤ line.end) × (line.end ≤ length s.now)) }
{
    if s.len() <= at {
        return None;
    }
    let end = line_end(s, at);
    let next = if end < s.len() { end + 1 } else { end };
    Some(Line {
        start: at,
        end,
        next,
    })
}

impl<'a> BlockReader<'a> {
    // A reader at the start of a block.
    pub fn new(block: &'a [u8]) -> BlockReader<'a>
        ensures block { result.block ≡ block.entry }
        ensures at { result.at ≡ 0 }
    {
        BlockReader { block, at: 0 }
    }

    // The line that starts at the reader's place.
    pub fn next_line(self) -> Option<Line>
        ensures found { result ≡ line_at self.entry.block.now self.entry.at }
        ensures within { IfSome result (λ line. (line.start ≤ line.end) × (line.end ≤ length self.entry.block.now)) }
    {
        line_at(self.block, self.at)
    }

    // A reader of the same block, at another place.
    pub fn moved(self, at: usize) -> BlockReader<'a>
        ensures block { result.block ≡ self.entry.block }
        ensures at { result.at ≡ at }
    {
        BlockReader { at, ..self }
    }
}

// The line that starts at a place, with plain parameters, for every other caller: a reader is made, moved to the place and asked
// for its line.
pub fn line_from(s: &[u8], at: usize) -> Option<Line>
    ensures found { result ≡ line_at s.now at }
    ensures within { IfSome result (λ line. (line.start ≤ line.end) × (line.end ≤ length s.now)) }
{
    BlockReader::new(s).moved(at).next_line()
}
