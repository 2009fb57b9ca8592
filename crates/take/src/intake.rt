// Lines taken into a room as their bytes come.
ghost use Rattle.std.specs.Prelude.{◌≡◌, List, ◌++◌, ℕ, ◌+◌, ◌≤◌, ◌<◌, eqb, length, take, replicate};
ghost use Rattle.catalogue.specs.Catalogue.{named as named_of};
ghost use Rattle.catalogue.specs.Room.{contents};
ghost use Rattle.catalogue.specs.Ordered.{Ordered};
ghost use Rattle.take.specs.Session.{Session, session_of, ended, ended_said, grown, opened};
ghost use Rattle.take.specs.Steps.{most_lines, Answered, Stepped, Closed};

use super::page::Page;
use super::text::put_answer;
use catalogue::splice::copy_in;
use catalogue::take::take_ordered;
use catalogue::{ROOM, column_of, number_of};
use formats::lines::line_end;
use std::marker::Model;

// A longer line answers as its first bytes up to here do.
const LINE: usize = 1024;

// The room, the bytes kept of a line that is not ended, the lines taken, and the pairs named in the room.
#[derive(Drop)]
pub struct Intake {
    room: [u8; ROOM],
    line: [u8; LINE],
    len: usize,
    number: u64,
    named: usize,
}

impl Model for Intake {
    ghost Value = { Session };

    ghost view = { λ s. session_of s.room s.line s.len s.number };

    ghost invariant = { λ s. Ordered s.room × (s.named ≡ named_of (contents s.room)) × (s.len ≤ 1024) };
}

// Takes a line into the room, which names so many pairs, and puts its answer; answers how many it names then.
fn answer<const N: usize>(
    room: &mut [u8],
    out: &mut Page<N>,
    number: u64,
    named: usize,
    line: &[u8],
) -> usize
    requires { Ordered room.old × (named ≡ named_of (contents room.old)) × (length out.old + 63 ≤ N) }
    ensures { Answered room.old out.old number line.now room.new out.new result }
{
    let taken = take_ordered(room, named, line);
    put_answer(out, number, number_of(taken.call), column_of(taken.call));
    taken.named
}

impl Intake {
    // A room in order that names so many pairs, what has come of a line that is not ended, and how many lines were taken before it.
    pub fn resumed(room: [u8; ROOM], named: usize, part: &[u8], number: u64) -> Self
        requires { Ordered room × (named ≡ named_of (contents room)) × (length part.now ≤ 1024) }
        ensures { result ≡ record { room = room; line = part.now; number = number } }
    {
        let mut line = [0; LINE];
        copy_in(&mut line, 0, part);
        Intake {
            room,
            line,
            len: part.len(),
            number,
            named,
        }
    }

    // An empty room, and nothing has come of the input.
    #[tactic(auto, unfolding(crate::specs::Session::opened))]
    pub fn new() -> Self
        ensures { result ≡ opened (replicate 62982 0) }
    {
        Intake::resumed([0; ROOM], 0, &[], 0)
    }

    pub fn room(&self) -> &[u8]
        ensures { (result.now ≡ self.now.room) × Ordered result.now }
    {
        &self.room
    }

    // Whether nothing has come of a line.
    fn is_empty(&self) -> bool
        ensures { result ≡ eqb (length self.now.line) 0 }
    {
        self.len == 0
    }

    // Adds a part of a line to what is kept of it, and cuts it.
    fn keep(&mut self, part: &[u8])
        ensures { (self.new ≡ grown self.old part.now) × (length self.old.line ≤ 1024) }
    {
        let more = &part[..part.len().min(LINE - self.len)];
        copy_in(&mut self.line, self.len, more);
        self.len += more.len();
    }

    // Ends the line that is kept.
    #[tactic(auto, unfolding(crate::specs::Session::ended, crate::specs::Session::ended_said))]
    fn end<const N: usize>(&mut self, out: &mut Page<N>)
        requires { (length out.old + 63 ≤ N) × (self.old.number ≤ most_lines) }
        ensures { (self.new ≡ ended self.old) × (out.new ≡ out.old ++ ended_said self.old) }
    {
        self.number += 1;
        self.named = answer(
            &mut self.room,
            out,
            self.number,
            self.named,
            &self.line[..self.len],
        );
        self.len = 0;
    }

    // Takes a line that came whole.
    fn take_whole<const N: usize>(&mut self, out: &mut Page<N>, line: &[u8])
        requires { (length self.old.line ≡ 0) × (length out.old + 63 ≤ N) × (self.old.number ≤ most_lines) }
        ensures { (self.new ≡ ended (grown self.old line.now)) × (out.new ≡ out.old ++ ended_said (grown self.old line.now)) }
    {
        let cut = &line[..line.len().min(LINE)];
        self.number += 1;
        self.named = answer(&mut self.room, out, self.number, self.named, cut);
    }

    // Takes the next line of the input, or keeps what has come of it where the input's bytes end before it does; answers how many
    // bytes that is.
    pub fn take_next<const N: usize>(&mut self, out: &mut Page<N>, rest: &[u8]) -> usize
        requires { (0 < length rest.now) × (length out.old + 63 ≤ N) × (self.old.number ≤ most_lines) }
        ensures { Stepped self.old out.old rest.now self.new out.new result }
    {
        let end = line_end(rest, 0);
        if end == rest.len() {
            self.keep(&rest[..end]);
            return end;
        }
        if self.is_empty() {
            self.take_whole(out, &rest[..end]);
        } else {
            self.keep(&rest[..end]);
            self.end(out);
        }
        end + 1
    }

    // The end of the input: a line that has any bytes is ended.
    #[tactic(auto, unfolding(crate::specs::Session::closed, crate::specs::Session::closed_said))]
    pub fn close<const N: usize>(&mut self, out: &mut Page<N>)
        requires { (length out.old + 63 ≤ N) × (self.old.number ≤ most_lines) }
        ensures { Closed self.old out.old self.new out.new }
    {
        if !self.is_empty() {
            self.end(out);
        }
    }
}
