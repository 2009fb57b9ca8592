// Columns and numbers: the lowest of the three layers. A line format is a table of columns; one reader and one writer
// interpret any table.
#![tactic(auto)]

ghost use Rattle.std.specs.Prelude.{◌≡◌};
ghost use Rattle.columns.specs.Answer.{number_of, refusal_at};

pub mod bytes;
pub mod calendar;
pub mod column;
pub mod cursor;
pub mod group;
pub mod judge;
pub mod number;
pub mod reader;
pub mod row;
pub mod word;
pub mod writer;
pub mod written;

// Why a line, a record or a place is refused: the numbers of document 01, "Numbers answered", and of document 02.
#[derive(Clone, Copy, PartialEq, Eq, Debug)]
pub enum Reason {
    Length = 1,
    Barred = 2,
    Type = 3,
    Separator = 4,
    Required = 5,
    Form = 6,
    Range = 7,
    Letter = 8,
    Check = 9,
    Wide = 10,
    Short = 11,
    Full = 12,
    Disorder = 13,
    OutOfPlace = 14,
    NotClosed = 15,
    LinksFull = 16,
    // a filled field that a line has no columns for (document 02, Wish 7)
    Dropped = 17,
}

// The number that is answered.
impl From<Reason> for u8 {
    ghost from_gives = { λ reason n. n ≡ number_of reason };

    fn from(reason: Reason) -> u8 {
        reason as u8
    }
}

// A refusal: why, and the column.
#[derive(Clone, Copy, PartialEq, Eq, Debug)]
pub struct Refusal {
    pub reason: Reason,
    pub column: usize,
}

impl Reason {
    // The refusal at a column.
    pub fn at(self, column: usize) -> Refusal
        ensures { result ≡ refusal_at self column }
    {
        Refusal {
            reason: self,
            column,
        }
    }
}
