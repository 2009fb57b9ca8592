// The library as C sees it: numbers and byte slices (a pointer and a length). include/rotmibel.h documents each call.
#![tactic(auto)]

ghost use Rattle.std.specs.Prelude.{◌≡◌, ◌<◌, length};
ghost use Rattle.formats.specs.CubeRecord.{read_into, write_from};
ghost use Rattle.formats.specs.Row.{read_row_into, write_row_from};
ghost use Rattle.formats.specs.Format.{format_of, header_of, block_of};
ghost use Rattle.formats.specs.Block.{read_block};
ghost use Rattle.formats.specs.BlockWriting.{header_call, record_call};
ghost use Rattle.formats.specs.Lettered.{kinds_of, read_lettered_into, write_lettered};
ghost use Rattle.formats.specs.Cards.{cards, card_record};
ghost use Rattle.formats.specs.RunWriting.{lettered_call};
ghost use Rattle.catalogue.specs.Answers.{call_number, call_column, order_number};
ghost use Rattle.catalogue.specs.Room.{call_of, room_after, order_of};
ghost use Rattle.catalogue.specs.LookUp.{look_up};
ghost use Rattle.catalogue.specs.QuickLookUp.{quick_look_up};
ghost use Rattle.rotmibel.specs.Answers.{parts, number_in, IsSmall, looked_number, searched_number, block_answer, line_number, line_in, IsSmallLine, met_line, place_in, HasLowColumn, Answered, AnsweredFrom, AnsweredRun, met_card};

use catalogue::look_up::look_up;
use catalogue::order::{check_order, take_line};
use catalogue::quick_look_up::quick_look_up;
use catalogue::{HELD, NOT_HELD, column_of};
use columns::Refusal;
use formats::block::read_block;
use formats::block_walk::{BlockLine, first_line, next_line};
use formats::block_writer::{write_header, write_record};
use formats::cards::{first_card, next_card, read_card, read_cards, write_card, write_card_record};
use formats::cube_record::{read_into, write_from};
use formats::format::{ARRIVAL, PHASE};
use formats::row::{read_row_into, write_row_from};

// Answer, column and length in one number.
fn parts_of(answer: u8, column: usize, len: usize) -> u64
    requires { (column < 65536) × (len < 1099511627776) }
    ensures { result ≡ parts answer column len }
{
    (answer as u64) + 256 * (column as u64) + 16777216 * (len as u64)
}

// A reply as one number.
fn number_of(r: Result<usize, Refusal>) -> u64
    requires { IsSmall r }
    ensures { result ≡ number_in r }
{
    match r {
        Ok(len) => parts_of(0, 0, len),
        Err(refusal) => parts_of(u8::from(refusal.reason), refusal.column, 0),
    }
}

// The reply of a call from a place as one number.
fn place_of(r: Result<usize, Refusal>) -> u64
    requires { HasLowColumn r }
    ensures { result ≡ place_in r }
{
    match r {
        Ok(place) => parts_of(0, 0, place % 1099511627776),
        Err(refusal) => parts_of(u8::from(refusal.reason), refusal.column, 0),
    }
}

// A CUBE line read into a record.
#[unsafe(no_mangle)]
pub extern "C" fn rotmibel_read_line(line: &[u8], out: &mut [u8]) -> u64
    ensures { Answered (read_into line.now (length out.old)) result out.old out.new }
{
    number_of(read_into(line, out))
}

// A CUBE line written from a record.
#[unsafe(no_mangle)]
pub extern "C" fn rotmibel_write_line(from: &[u8], out: &mut [u8]) -> u64
    ensures { Answered (write_from from.now (length out.old)) result out.old out.new }
{
    number_of(write_from(from, out))
}

// A line taken into a room.
#[unsafe(no_mangle)]
pub extern "C" fn rotmibel_take(room: &mut [u8], line: &[u8]) -> u64
    ensures { (result ≡ parts (call_number (call_of room.old line.now)) (call_column (call_of room.old line.now)) 0) × (room.new ≡ room_after room.old line.now) }
{
    let call = take_line(room, line);
    parts_of(catalogue::number_of(call), column_of(call), 0)
}

// A pair looked up in a room.
#[unsafe(no_mangle)]
pub extern "C" fn rotmibel_look_up(room: &[u8], source: &[u8], identifier: &[u8]) -> u64
    ensures { result ≡ looked_number (look_up room.now source.now identifier.now) }
{
    match look_up(room, source, identifier) {
        Ok(Some(place)) => parts_of(HELD, 0, place),
        Ok(None) => parts_of(NOT_HELD, 0, 0),
        Err(reason) => parts_of(u8::from(reason), 0, 0),
    }
}

// A pair looked up in a room by halving.
#[unsafe(no_mangle)]
pub extern "C" fn rotmibel_quick_look_up(room: &[u8], source: &[u8], identifier: &[u8]) -> u64
    ensures { result ≡ searched_number (quick_look_up room.now source.now identifier.now) }
{
    match quick_look_up(room, source, identifier) {
        Ok(searched) => match searched.place {
            Some(place) => parts_of(HELD, searched.examined, place),
            None => parts_of(NOT_HELD, searched.examined, 0),
        },
        Err(reason) => parts_of(u8::from(reason), 0, 0),
    }
}

// Whether a room is in order.
#[unsafe(no_mangle)]
pub extern "C" fn rotmibel_in_order(room: &[u8]) -> u64
    ensures { result ≡ parts (order_number (order_of room.now)) 0 0 }
{
    match check_order(room) {
        Ok(()) => 0,
        Err(reason) => parts_of(u8::from(reason), 0, 0),
    }
}

// ---- row formats, by the number of their record's kind

// A line read into a record.
fn read_row_number(kind: u8, line: &[u8], out: &mut [u8]) -> u64
    ensures { Answered (read_row_into (format_of kind) line.now (length out.old)) result out.old out.new }
{
    number_of(read_row_into(kind, line, out))
}

// A line written from a record.
fn write_row_number(kind: u8, from: &[u8], out: &mut [u8]) -> u64
    ensures { Answered (write_row_from (format_of kind) from.now (length out.old)) result out.old out.new }
{
    number_of(write_row_from(kind, from, out))
}

// A block read.
fn block_number(kind: u8, block: &[u8]) -> u64
    ensures { result ≡ block_answer (read_block (block_of kind) block.now) }
{
    match read_block(kind, block) {
        Ok(counts) => parts_of(0, counts.rows, counts.comments + 65536 * counts.used),
        Err(refusal) => parts_of(u8::from(refusal.reason), refusal.column, refusal.line),
    }
}

// The line that a number of a walk's call tells of.
fn line_of(number: u64) -> BlockLine
    ensures { result ≡ line_in number }
{
    BlockLine {
        kind: (number % 256) as u8,
        number: (number / 256 % 65536) as usize,
        end: (number / 16777216 % 1048576) as usize,
        next: (number / 17592186044416) as usize,
    }
}

// The first line of a block, or the line after the one that a number tells of.
fn met_line(kind: u8, block: &[u8], before: u64) -> BlockLine
    ensures { result ≡ met_line (header_of kind) block.now before }
{
    if before == 0 {
        return first_line(kind, block);
    }
    next_line(block, line_of(before))
}

// A line of a walk as one number.
fn line_number(line: BlockLine) -> u64
    requires { IsSmallLine line }
    ensures { result ≡ line_number line }
{
    parts_of(line.kind, line.number, line.end + 1048576 * line.next)
}

// The next line of a block, after the one that the call before answered.
fn met_number(kind: u8, block: &[u8], before: u64) -> u64
    ensures { result ≡ line_number (met_line (header_of kind) block.now before) }
{
    line_number(met_line(kind, block, before))
}

// A block's header written from a place on.
fn header_number(kind: u8, out: &mut [u8], at: usize) -> u64
    ensures { AnsweredFrom at (header_call (header_of kind) at (length out.old)) result out.old out.new }
{
    place_of(write_header(kind, out, at))
}

// A record written as a line of a block, from a place on.
fn record_number(kind: u8, from: &[u8], out: &mut [u8], at: usize) -> u64
    ensures { AnsweredFrom at (record_call (format_of kind) from.now at (length out.old)) result out.old out.new }
{
    place_of(write_record(kind, from, out, at))
}

// ---- the phase line and its block

// A phase line read into a record.
#[unsafe(no_mangle)]
pub extern "C" fn rotmibel_read_phase(line: &[u8], out: &mut [u8]) -> u64
    ensures { Answered (read_row_into (format_of 3) line.now (length out.old)) result out.old out.new }
{
    read_row_number(PHASE, line, out)
}

// A phase line written from a record.
#[unsafe(no_mangle)]
pub extern "C" fn rotmibel_write_phase(from: &[u8], out: &mut [u8]) -> u64
    ensures { Answered (write_row_from (format_of 3) from.now (length out.old)) result out.old out.new }
{
    write_row_number(PHASE, from, out)
}

// A phase block read.
#[unsafe(no_mangle)]
pub extern "C" fn rotmibel_read_block(block: &[u8]) -> u64
    ensures { result ≡ block_answer (read_block (block_of 3) block.now) }
{
    block_number(PHASE, block)
}

// The next line of a phase block, after the one that the call before answered.
#[unsafe(no_mangle)]
pub extern "C" fn rotmibel_block_line(block: &[u8], before: u64) -> u64
    ensures { result ≡ line_number (met_line (header_of 3) block.now before) }
{
    met_number(PHASE, block, before)
}

// The header of a phase block written from a place on.
#[unsafe(no_mangle)]
pub extern "C" fn rotmibel_write_header(out: &mut [u8], at: usize) -> u64
    ensures { AnsweredFrom at (header_call (header_of 3) at (length out.old)) result out.old out.new }
{
    header_number(PHASE, out, at)
}

// A phase record written as a line of a block, from a place on.
#[unsafe(no_mangle)]
pub extern "C" fn rotmibel_write_record(from: &[u8], out: &mut [u8], at: usize) -> u64
    ensures { AnsweredFrom at (record_call (format_of 3) from.now at (length out.old)) result out.old out.new }
{
    record_number(PHASE, from, out, at)
}

// ---- the arrival line and its block

// An arrival line read into a record.
#[unsafe(no_mangle)]
pub extern "C" fn rotmibel_read_arrival(line: &[u8], out: &mut [u8]) -> u64
    ensures { Answered (read_row_into (format_of 5) line.now (length out.old)) result out.old out.new }
{
    read_row_number(ARRIVAL, line, out)
}

// An arrival line written from a record.
#[unsafe(no_mangle)]
pub extern "C" fn rotmibel_write_arrival(from: &[u8], out: &mut [u8]) -> u64
    ensures { Answered (write_row_from (format_of 5) from.now (length out.old)) result out.old out.new }
{
    write_row_number(ARRIVAL, from, out)
}

// An arrival block read.
#[unsafe(no_mangle)]
pub extern "C" fn rotmibel_read_arrival_block(block: &[u8]) -> u64
    ensures { result ≡ block_answer (read_block (block_of 5) block.now) }
{
    block_number(ARRIVAL, block)
}

// The next line of an arrival block, after the one that the call before answered.
#[unsafe(no_mangle)]
pub extern "C" fn rotmibel_arrival_block_line(block: &[u8], before: u64) -> u64
    ensures { result ≡ line_number (met_line (header_of 5) block.now before) }
{
    met_number(ARRIVAL, block, before)
}

// The header of an arrival block written from a place on.
#[unsafe(no_mangle)]
pub extern "C" fn rotmibel_write_arrival_header(out: &mut [u8], at: usize) -> u64
    ensures { AnsweredFrom at (header_call (header_of 5) at (length out.old)) result out.old out.new }
{
    header_number(ARRIVAL, out, at)
}

// An arrival record written as a line of a block, from a place on.
#[unsafe(no_mangle)]
pub extern "C" fn rotmibel_write_arrival_record(from: &[u8], out: &mut [u8], at: usize) -> u64
    ensures { AnsweredFrom at (record_call (format_of 5) from.now at (length out.old)) result out.old out.new }
{
    record_number(ARRIVAL, from, out, at)
}

// ---- the Calnet cards and runs of them

// A card read into the record of its kind.
#[unsafe(no_mangle)]
pub extern "C" fn rotmibel_read_card(line: &[u8], out: &mut [u8]) -> u64
    ensures { Answered (read_lettered_into (kinds_of cards) card_record line.now (length out.old)) result out.old out.new }
{
    number_of(read_card(line, out))
}

// A card written from its record.
#[unsafe(no_mangle)]
pub extern "C" fn rotmibel_write_card(from: &[u8], out: &mut [u8]) -> u64
    ensures { Answered (write_lettered cards from.now (length out.old)) result out.old out.new }
{
    number_of(write_card(from, out))
}

// A card written from its record as a line of a run, from a place on.
#[unsafe(no_mangle)]
pub extern "C" fn rotmibel_write_card_record(from: &[u8], out: &mut [u8], at: usize) -> u64
    ensures { AnsweredFrom at (lettered_call cards from.now at (length out.old)) result out.old out.new }
{
    place_of(write_card_record(from, out, at))
}

// A run of cards read, and how many cards it has of each letter.
#[unsafe(no_mangle)]
pub extern "C" fn rotmibel_read_cards(run: &[u8], counts: &mut [u8]) -> u64
    ensures { AnsweredRun run.now result counts.old counts.new }
{
    match read_cards(run, counts) {
        Ok(events) => parts_of(0, events, 14),
        Err(refusal) => parts_of(u8::from(refusal.reason), refusal.column, refusal.line),
    }
}

// The first card of a run, or the card after the one that a number tells of.
fn met_card(run: &[u8], before: u64) -> BlockLine
    ensures { result ≡ met_card run.now before }
{
    if before == 0 {
        return first_card(run);
    }
    next_card(run, line_of(before))
}

// The next card of a run, after the one that the call before answered.
#[unsafe(no_mangle)]
pub extern "C" fn rotmibel_card_line(run: &[u8], before: u64) -> u64
    ensures { result ≡ line_number (met_card run.now before) }
{
    line_number(met_card(run, before))
}
