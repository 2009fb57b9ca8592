// The row formats by the number of their record's kind: each one's place in the table of columns, and its sizes.
ghost use Rattle.std.specs.Prelude.{◌≡◌};
ghost use Rattle.formats.specs.Format.{Formed};

// The kinds of a phase record, of an arrival record, and of the cards' records by their key letters.
pub const PHASE: u8 = 3;

pub const ARRIVAL: u8 = 5;

pub const CARD_I: u8 = 6;

pub const CARD_L: u8 = 7;

pub const CARD_E: u8 = 8;

pub const CARD_M: u8 = 9;

pub const CARD_P: u8 = 10;

pub const CARD_A: u8 = 11;

pub const CARD_R: u8 = 12;

// A row format: its record's kind; its first row in the table and how many it has; the bytes of its line, the numbers
// and the text bytes of its record.
#[derive(Clone, Copy)]
pub struct Format {
    pub kind: u8,
    pub first: usize,
    pub rows: usize,
    pub width: usize,
    pub numbers: usize,
    pub texts: usize,
}

fn row_format(
    kind: u8,
    first: usize,
    rows: usize,
    width: usize,
    numbers: usize,
    texts: usize,
) -> Format
    ensures { result ≡ record { kind = kind; first = first; rows = rows; width = width; numbers = numbers; texts = texts } }
{
    Format {
        kind,
        first,
        rows,
        width,
        numbers,
        texts,
    }
}

// The format of a kind; any number that names none is taken for the phase line's.
pub fn format_of(kind: u8) -> Format
    ensures { Formed kind result }
{
    match kind {
        // kind, first row, rows; bytes, numbers, text bytes
        ARRIVAL => row_format(ARRIVAL, 64, 54, 203, 17, 86),
        CARD_I => row_format(CARD_I, 118, 19, 45, 8, 1),
        CARD_L => row_format(CARD_L, 137, 13, 43, 4, 6),
        CARD_E => row_format(CARD_E, 150, 19, 63, 9, 0),
        CARD_M => row_format(CARD_M, 169, 8, 18, 2, 5),
        CARD_P => row_format(CARD_P, 177, 11, 42, 1, 27),
        CARD_A => row_format(CARD_A, 188, 11, 43, 2, 24),
        CARD_R => row_format(CARD_R, 199, 3, 78, 0, 76),
        _ => row_format(PHASE, 0, 64, 199, 18, 68),
    }
}
