// The table of all row formats' columns, and the two functions that read and write by it.
ghost use Rattle.std.specs.Prelude.{◌≡◌, [], length};
ghost use Rattle.columns.specs.Column.{widths, all_slots, all_texts};
ghost use Rattle.columns.specs.Reading.{read_columns, read_part};
ghost use Rattle.columns.specs.Row.{write_whole};
ghost use Rattle.columns.specs.Table.{slots_of, ReadPart, Wrote};
ghost use Rattle.formats.specs.Format.{format_of};

use super::format::format_of;
use super::ranges::{
    AZIMUTH, DISTANCE, HOUR, LATITUDE, LATITUDE_3, LONGITUDE, LONGITUDE_3, MINUTE, MONTH, RANGES,
    SECOND_3, YEAR,
};
use columns::column::{
    ANY_TEXT, AS_HELD, BLANK, BLANK_OR_FILLED, CLOCK, DATE, DAY, DECIMAL, GROUP, INTEGER, LETTER,
    Layout, NOT_ALL_BLANK, NOT_BLANK_FIRST, PLACES, PRINTED, REQUIRED, TEXT, WIDTH,
};
use columns::reader::read_columns;
use columns::row::write_row;
use columns::{Reason, Refusal};

// The columns of every row format, one format after the other.
const ROWS: [u32; 202] = [
    // the phase line, specs/Phase.antt
    TEXT + 5 * WIDTH + NOT_BLANK_FIRST, // 1-5 station
    BLANK + WIDTH, // 6
    DECIMAL + 6 * WIDTH + 2 * PLACES + DISTANCE, // 7-12 distance
    BLANK + WIDTH, // 13
    DECIMAL + 5 * WIDTH + PLACES + AZIMUTH, // 14-18 event azimuth
    BLANK + WIDTH, // 19
    TEXT + 8 * WIDTH + ANY_TEXT, // 20-27 phase
    BLANK + WIDTH, // 28
    GROUP + CLOCK, // 29-40 time
    BLANK + WIDTH, // 41
    DECIMAL + 5 * WIDTH + PLACES + AS_HELD, // 42-46 time residual
    BLANK + WIDTH, // 47
    DECIMAL + 5 * WIDTH + PLACES + AZIMUTH, // 48-52 observed azimuth
    BLANK + WIDTH, // 53
    DECIMAL + 5 * WIDTH + PLACES + AS_HELD, // 54-58 azimuth residual
    BLANK + WIDTH, // 59
    DECIMAL + 6 * WIDTH + PLACES + AS_HELD, // 60-65 slowness
    BLANK + WIDTH, // 66
    DECIMAL + 6 * WIDTH + PLACES + AS_HELD, // 67-72 slowness residual
    BLANK + WIDTH, // 73
    LETTER + 3, // 74 time defining: T _ or blank
    LETTER + 3 * PLACES + 3, // 75 azimuth defining: A _ or blank
    LETTER + 6 * PLACES + 3, // 76 slowness defining: S _ or blank
    BLANK + WIDTH, // 77
    DECIMAL + 5 * WIDTH + PLACES + AS_HELD, // 78-82 signal to noise
    BLANK + WIDTH, // 83
    DECIMAL + 9 * WIDTH + PLACES + AS_HELD, // 84-92 amplitude
    BLANK + WIDTH, // 93
    DECIMAL + 5 * WIDTH + 2 * PLACES + AS_HELD, // 94-98 period
    BLANK + WIDTH, // 99
    LETTER + 9 * PLACES + 4, // 100 type of pick: a m _ or blank
    LETTER + 13 * PLACES + 4, // 101 short period motion: c d _ or blank
    LETTER + 17 * PLACES + 5, // 102 onset: i e q _ or blank
    BLANK + WIDTH, // 103
    TEXT + 5 * WIDTH + ANY_TEXT, // 104-108 magnitude type
    LETTER + 22 * PLACES + 3, // 109 < > or blank
    DECIMAL + 4 * WIDTH + PLACES + AS_HELD, // 110-113 magnitude
    BLANK + WIDTH, // 114
    TEXT + 8 * WIDTH + ANY_TEXT, // 115-122 arrival identification
    TEXT + 3 * WIDTH + ANY_TEXT, // 123-125 its extension
    BLANK + WIDTH, // 126
    TEXT + 5 * WIDTH + ANY_TEXT, // 127-131 agency
    BLANK + WIDTH, // 132
    TEXT + 8 * WIDTH + ANY_TEXT, // 133-140 deployment
    BLANK + WIDTH, // 141
    TEXT + 2 * WIDTH + ANY_TEXT, // 142-143 location
    BLANK + WIDTH, // 144
    TEXT + 5 * WIDTH + ANY_TEXT, // 145-149 author
    BLANK + WIDTH, // 150
    TEXT + 5 * WIDTH + ANY_TEXT, // 151-155 reporter
    BLANK + WIDTH, // 156
    TEXT + 3 * WIDTH + ANY_TEXT, // 157-159 phase channel
    BLANK + WIDTH, // 160
    TEXT + 3 * WIDTH + ANY_TEXT, // 161-163 amplitude channel
    BLANK + WIDTH, // 164
    TEXT + WIDTH + ANY_TEXT, // 165 long period first motion
    BLANK + WIDTH, // 166
    DECIMAL + 8 * WIDTH + 4 * PLACES + LATITUDE, // 167-174 latitude
    BLANK + WIDTH, // 175
    DECIMAL + 9 * WIDTH + 4 * PLACES + LONGITUDE, // 176-184 longitude
    BLANK + WIDTH, // 185
    DECIMAL + 7 * WIDTH + PLACES + AS_HELD, // 186-192 elevation
    BLANK + WIDTH, // 193
    DECIMAL + 6 * WIDTH + PLACES + AS_HELD, // 194-199 instrument depth
    // the arrival line, specs/Arrival.antt
    TEXT + 9 * WIDTH + BLANK_OR_FILLED, // 1-9 network
    BLANK + WIDTH, // 10
    TEXT + 5 * WIDTH + NOT_ALL_BLANK, // 11-15 station
    BLANK + WIDTH, // 16
    TEXT + 12 * WIDTH + ANY_TEXT, // 17-28 beam identifier
    BLANK + WIDTH, // 29
    GROUP + DATE, // 30-39 date
    BLANK + WIDTH, // 40
    GROUP + CLOCK, // 41-52 time
    BLANK + WIDTH, // 53
    TEXT + 8 * WIDTH + ANY_TEXT, // 54-61 phase
    BLANK + WIDTH, // 62
    DECIMAL + 5 * WIDTH + PLACES + AZIMUTH, // 63-67 azimuth
    BLANK + WIDTH, // 68
    DECIMAL + 5 * WIDTH + PLACES + AS_HELD, // 69-73 slowness
    BLANK + WIDTH, // 74
    DECIMAL + 5 * WIDTH + PLACES + AS_HELD, // 75-79 signal to noise
    BLANK + WIDTH, // 80
    DECIMAL + 9 * WIDTH + PLACES + AS_HELD, // 81-89 amplitude
    BLANK + WIDTH, // 90
    DECIMAL + 5 * WIDTH + 2 * PLACES + AS_HELD, // 91-95 period
    BLANK + WIDTH, // 96
    DECIMAL + 5 * WIDTH + PLACES + AS_HELD, // 97-101 short-term average
    BLANK + WIDTH, // 102
    DECIMAL + 5 * WIDTH + PLACES + AS_HELD, // 103-107 duration
    BLANK + WIDTH, // 108
    TEXT + 9 * WIDTH + ANY_TEXT, // 109-117 author of the detection
    BLANK + WIDTH, // 118
    TEXT + 8 * WIDTH + ANY_TEXT, // 119-126 detection identifier
    TEXT + 3 * WIDTH + ANY_TEXT, // 127-129 its extension
    BLANK + WIDTH, // 130
    TEXT + 5 * WIDTH + ANY_TEXT, // 131-135 agency
    BLANK + WIDTH, // 136
    TEXT + 8 * WIDTH + ANY_TEXT, // 137-144 deployment
    BLANK + WIDTH, // 145
    TEXT + 2 * WIDTH + ANY_TEXT, // 146-147 location
    BLANK + WIDTH, // 148
    TEXT + 5 * WIDTH + ANY_TEXT, // 149-153 author of data
    BLANK + WIDTH, // 154
    TEXT + 5 * WIDTH + ANY_TEXT, // 155-159 reporter of data
    BLANK + WIDTH, // 160
    TEXT + 3 * WIDTH + ANY_TEXT, // 161-163 phase channel
    BLANK + WIDTH, // 164
    TEXT + 3 * WIDTH + ANY_TEXT, // 165-167 amplitude channel
    BLANK + WIDTH, // 168
    TEXT + WIDTH + ANY_TEXT, // 169 long period first motion
    BLANK + WIDTH, // 170
    DECIMAL + 8 * WIDTH + 4 * PLACES + LATITUDE, // 171-178 latitude
    BLANK + WIDTH, // 179
    DECIMAL + 9 * WIDTH + 4 * PLACES + LONGITUDE, // 180-188 longitude
    BLANK + WIDTH, // 189
    DECIMAL + 7 * WIDTH + PLACES + AS_HELD, // 190-196 elevation
    BLANK + WIDTH, // 197
    DECIMAL + 6 * WIDTH + PLACES + AS_HELD, // 198-203 instrument depth
    // the cards, specs/Calnet.antt
    PRINTED + WIDTH + b'I' as u32, // 1 I
    BLANK + WIDTH, // 2
    INTEGER + 4 * WIDTH + REQUIRED + YEAR, // 3-6 year
    BLANK + WIDTH, // 7
    INTEGER + 2 * WIDTH + REQUIRED + MONTH, // 8-9 month
    BLANK + WIDTH, // 10
    INTEGER + 2 * WIDTH + REQUIRED + DAY, // 11-12 day
    BLANK + WIDTH, // 13
    INTEGER + 2 * WIDTH + REQUIRED + HOUR, // 14-15 hour
    BLANK + WIDTH, // 16
    INTEGER + 2 * WIDTH + REQUIRED + MINUTE, // 17-18 minute
    BLANK + WIDTH, // 19
    DECIMAL + 6 * WIDTH + 3 * PLACES + REQUIRED + SECOND_3, // 20-25 second
    BLANK + WIDTH, // 26
    INTEGER + 8 * WIDTH + AS_HELD, // 27-34 identifier
    BLANK + WIDTH, // 35
    INTEGER + 8 * WIDTH + AS_HELD, // 36-43 parent's identifier
    BLANK + WIDTH, // 44
    TEXT + WIDTH + ANY_TEXT, // 45 type
    PRINTED + WIDTH + b'L' as u32, // 1 L
    BLANK + WIDTH, // 2
    DECIMAL + 7 * WIDTH + 3 * PLACES + LATITUDE_3, // 3-9 latitude
    BLANK + WIDTH, // 10
    DECIMAL + 8 * WIDTH + 3 * PLACES + LONGITUDE_3, // 11-18 longitude
    BLANK + WIDTH, // 19
    DECIMAL + 6 * WIDTH + 2 * PLACES + AS_HELD, // 20-25 depth
    BLANK + WIDTH, // 26
    DECIMAL + 9 * WIDTH + 3 * PLACES + AS_HELD, // 27-35 origin time
    BLANK + WIDTH, // 36
    TEXT + 3 * WIDTH + ANY_TEXT, // 37-39 constraints
    BLANK + WIDTH, // 40
    TEXT + 3 * WIDTH + ANY_TEXT, // 41-43 method
    PRINTED + WIDTH + b'E' as u32, // 1 E
    BLANK + WIDTH, // 2
    DECIMAL + 7 * WIDTH + 3 * PLACES + AS_HELD, // 3-9 residual
    BLANK + WIDTH, // 10
    DECIMAL + 7 * WIDTH + 3 * PLACES + AS_HELD, // 11-17 error in latitude
    BLANK + WIDTH, // 18
    DECIMAL + 7 * WIDTH + 3 * PLACES + AS_HELD, // 19-25 error in longitude
    BLANK + WIDTH, // 26
    DECIMAL + 7 * WIDTH + 3 * PLACES + AS_HELD, // 27-33 depth error
    BLANK + WIDTH, // 34
    DECIMAL + 7 * WIDTH + 3 * PLACES + AS_HELD, // 35-41 error in origin time
    BLANK + WIDTH, // 42
    INTEGER + 4 * WIDTH + AS_HELD, // 43-46 picked phases
    BLANK + WIDTH, // 47
    INTEGER + 4 * WIDTH + AS_HELD, // 48-51 phases used
    BLANK + WIDTH, // 52
    DECIMAL + 5 * WIDTH + PLACES + AS_HELD, // 53-57 gap
    BLANK + WIDTH, // 58
    DECIMAL + 5 * WIDTH + PLACES + AS_HELD, // 59-63 nearest station
    PRINTED + WIDTH + b'M' as u32, // 1 M
    BLANK + WIDTH, // 2
    TEXT + WIDTH + ANY_TEXT, // 3 magnitude type
    BLANK + WIDTH, // 4
    DECIMAL + 6 * WIDTH + 2 * PLACES + AS_HELD, // 5-10 magnitude
    INTEGER + 3 * WIDTH + AS_HELD, // 11-13 count
    BLANK + WIDTH, // 14
    TEXT + 4 * WIDTH + ANY_TEXT, // 15-18 agency
    PRINTED + WIDTH + b'P' as u32, // 1 P
    BLANK + WIDTH, // 2
    TEXT + 15 * WIDTH + ANY_TEXT, // 3-17 station
    BLANK + WIDTH, // 18
    TEXT + 3 * WIDTH + ANY_TEXT, // 19-21 recording system
    BLANK + WIDTH, // 22
    TEXT + 6 * WIDTH + ANY_TEXT, // 23-28 phase
    BLANK + WIDTH, // 29
    TEXT + 3 * WIDTH + ANY_TEXT, // 30-32 description
    BLANK + WIDTH, // 33
    DECIMAL + 9 * WIDTH + 3 * PLACES + AS_HELD, // 34-42 arrival time
    PRINTED + WIDTH + b'A' as u32, // 1 A
    BLANK + WIDTH, // 2
    TEXT + 15 * WIDTH + ANY_TEXT, // 3-17 station
    BLANK + WIDTH, // 18
    TEXT + 3 * WIDTH + ANY_TEXT, // 19-21 recording system
    BLANK + WIDTH, // 22
    DECIMAL + 7 * WIDTH + 2 * PLACES + AS_HELD, // 23-29 amplitude
    BLANK + WIDTH, // 30
    TEXT + 6 * WIDTH + ANY_TEXT, // 31-36 phase
    BLANK + WIDTH, // 37
    DECIMAL + 6 * WIDTH + 2 * PLACES + AS_HELD, // 38-43 period
    PRINTED + WIDTH + b'R' as u32, // 1 R
    BLANK + WIDTH, // 2
    TEXT + 76 * WIDTH + ANY_TEXT, // 3-78 remark
];

// The sets of letters, one after the other.
const LETTERS: [u8; 25] = *b"T_ A_ S_ am_ cd_ ieq_ <> ";

const TABLE: Layout<'static> = Layout {
    rows: &ROWS,
    ranges: &RANGES,
    letters: &LETTERS,
};

// The columns of a line of a format's full width, over the first places of the lent record. Where one is refused, those before it
// stand there.
pub fn read_cells(
    kind: u8,
    line: &[u8],
    flags: &mut [u8; 40],
    values: &mut [i64; 40],
    text: &mut [u8; 160],
) -> Result<(), Refusal>
    requires { length line.now ≡ widths (format_of kind).columns }
    ensures { ReadPart (read_columns (format_of kind).columns [] 0 line.now) (read_part (format_of kind).columns [] 0 line.now) result flags.old flags.new values.old values.new text.old text.new }
{
    let f = format_of(kind);
    let layout = TABLE.part(f.first, f.first + f.rows);
    read_columns(line, 0, &layout, flags, values, text)
}

// A format's record, its numbers and its text bytes, as a line over the first bytes of `out`: 6 where it is not whole. Nothing is
// changed where it is refused.
pub fn write_cells(
    kind: u8,
    flags: &[u8],
    values: &[i64],
    text: &[u8],
    out: &mut [u8],
) -> Result<(), Refusal>
    requires { (length flags.now ≡ all_slots (format_of kind).columns) × ((length values.now ≡ all_slots (format_of kind).columns) × (length text.now ≡ all_texts (format_of kind).columns)) }
    ensures { Wrote (write_whole (format_of kind).columns flags.now (slots_of flags.now values.now) text.now (length out.old)) result out.old out.new }
{
    let f = format_of(kind);
    let layout = TABLE.part(f.first, f.first + f.rows);
    write_row(flags, values, text, &layout, f.width, out)
}
