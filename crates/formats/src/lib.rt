// Formats: CUBE messages, rows of file formats (the ISF phase and arrival lines in blocks, the Calnet cards in runs), and the bytes of their records.
#![tactic(auto)]

ghost use Rattle.std.specs.Prelude.{◌≡◌};
ghost use Rattle.formats.specs.Refused.{refused_line};

pub mod block;
pub mod block_line;
pub mod block_reader;
pub mod block_walk;
pub mod block_writer;
pub mod cards;
pub mod check;
pub mod cube;
pub mod cube_record;
pub mod format;
pub mod header;
pub mod judge;
pub mod lettered;
pub mod lines;
pub mod link;
pub mod ranges;
pub mod record;
pub mod row;
pub mod run;
pub mod run_walk;
pub mod table;

use columns::{Reason, Refusal};

// A refused line of a block or a run: why, the column, and the line's number from 1; 0 where it is no line's.
#[derive(Clone, Copy, PartialEq, Eq, Debug)]
pub struct LineRefusal {
    pub reason: Reason,
    pub column: usize,
    pub line: usize,
}

impl LineRefusal {
    // The refusal of a line by its number.
    pub fn on_line(refusal: Refusal, line: usize) -> LineRefusal
        ensures { result ≡ refused_line refusal.reason refusal.column line }
    {
        LineRefusal {
            reason: refusal.reason,
            column: refusal.column,
            line,
        }
    }
}
