// The catalogue: one room of held E lines, deletions and links.
#![tactic(auto)]

ghost use Rattle.std.specs.Prelude.{◌≡◌};
ghost use Rattle.catalogue.specs.Answers.{effect_number, call_number, call_column};

use columns::Refusal;

pub mod decide;
pub mod desk;
pub mod key;
pub mod link;
pub mod look_up;
pub mod moves;
pub mod order;
pub mod quick_look_up;
pub mod room;
pub mod section;
pub mod splice;
pub mod take;

// The bytes of a room.
pub const ROOM: usize = 62982;

// The most pairs that a room names.
pub const PAIRS: usize = 512;

// The most links that a room has.
pub const LINKS: usize = 64;

// The version of a delete that has none.
pub const BLANK: u8 = 32;

// What was done with a line.
#[derive(Clone, Copy, PartialEq, Eq, Debug)]
pub enum Effect {
    Stored = 20,
    Replaced = 21,
    Repeated = 22,
    Outdated = 23,
    Removed = 24,
    Noted = 25,
    NothingHeld = 26,
}

// The number that is answered.
impl From<Effect> for u8 {
    ghost from_gives = { λ effect n. n ≡ effect_number effect };

    fn from(effect: Effect) -> u8 {
        effect as u8
    }
}

// The numbers of a look-up that found a held line, and of one that found none.
pub const HELD: u8 = 27;

pub const NOT_HELD: u8 = 28;

// The number answered for a line: of what was done with it, or of its refusal.
pub fn number_of(call: Result<Effect, Refusal>) -> u8
    ensures { result ≡ call_number call }
{
    match call {
        Ok(effect) => u8::from(effect),
        Err(refusal) => u8::from(refusal.reason),
    }
}

// The column answered for a line: of its refusal, or 0.
pub fn column_of(call: Result<Effect, Refusal>) -> usize
    ensures { result ≡ call_column call }
{
    match call {
        Ok(_) => 0,
        Err(refusal) => refusal.column,
    }
}

// What a look-up by halving found: the place of a held line, and how many entries it examined.
#[derive(Clone, Copy, PartialEq, Eq, Debug)]
pub struct Searched {
    pub place: Option<usize>,
    pub examined: usize,
}
