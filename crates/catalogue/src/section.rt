// A section of a room: entries of one size after their count, ascending by a key.
ghost use Rattle.std.specs.Prelude.{◌≡◌, [], ◌+◌, ◌*◌, ◌≤◌, ◌<◌, get_or, length};
ghost use Rattle.catalogue.specs.Assoc.{below, AscFrom};
ghost use Rattle.catalogue.specs.Good.{ascends};
ghost use Rattle.catalogue.specs.Keys.{key_number};
ghost use Rattle.catalogue.specs.Entries.{entries_of, key_of_entry, Inside, Sought};

use super::key::{Key, before, equal, key_at};

// Where a section's count stands, how many entries it has, the bytes of an entry, where an entry has its source and identifier, and
// whether its key has a type besides.
#[derive(Clone, Copy)]
pub struct Section {
    pub at: usize,
    pub count: usize,
    pub size: usize,
    pub source: usize,
    pub identifier: usize,
    pub typed: bool,
}

// The entries of a section, in bytes in which it lies.
#[derive(Clone, Copy)]
pub struct Entries<'a> {
    pub bytes: &'a [u8],
    pub of: Section,
    pub ghost inside: { Inside of bytes.now },
}

impl<'a> Entries<'a> {
    // Where an entry stands.
    #[inline(always)]
    pub fn entry_at(&self, i: usize) -> usize
        requires { i ≤ self.now.of.count }
        ensures { result ≡ self.now.of.at + 2 + self.now.of.size * i }
    {
        self.of.at + 2 + self.of.size * i
    }

    // The bytes of an entry.
    #[inline(always)]
    pub fn entry(&self, i: usize) -> &'a [u8]
        requires { i < self.now.of.count }
        ensures { (result.now ≡ get_or (entries_of self.now.of self.now.bytes.now) i []) × (length result.now ≡ self.now.of.size) }
    {
        let at = self.entry_at(i);
        &self.bytes[at..at + self.of.size]
    }

    // A byte of an entry.
    #[inline(always)]
    pub fn entry_byte(&self, i: usize, j: usize) -> u8
        requires { (i < self.now.of.count) × (j < self.now.of.size) }
        ensures { result ≡ get_or (get_or (entries_of self.now.of self.now.bytes.now) i []) j 0 }
    {
        self.entry(i)[j]
    }

    // The key of an entry.
    #[inline(always)]
    pub fn key_of(&self, i: usize) -> Key
        requires { i < self.now.of.count }
        ensures { key_number result ≡ key_of_entry self.now.of (get_or (entries_of self.now.of self.now.bytes.now) i []) }
    {
        key_at(
            self.entry(i),
            self.of.source,
            self.of.identifier,
            self.of.typed,
        )
    }

    // How many entries have a key below the given one: by halving the stretch that can hold the place.
    fn place(&self, key: Key) -> usize
        requires { AscFrom (key_of_entry self.now.of) 0 (entries_of self.now.of self.now.bytes.now) }
        ensures { result ≡ below (key_of_entry self.now.of) (key_number key) (entries_of self.now.of self.now.bytes.now) }
    {
        let mut low = 0;
        let mut high = self.of.count;
        while low < high {
            let mid = low + (high - low) / 2;
            if before(self.key_of(mid), key) {
                low = mid + 1;
            } else {
                high = mid;
            }
        }
        low
    }

    // The same by a walk from a place that is not past it.
    #[inline(always)]
    pub fn advance(&self, from: usize, key: Key) -> usize
        requires { AscFrom (key_of_entry self.now.of) 0 (entries_of self.now.of self.now.bytes.now) × (from ≤ below (key_of_entry self.now.of) (key_number key) (entries_of self.now.of self.now.bytes.now)) }
        ensures { result ≡ below (key_of_entry self.now.of) (key_number key) (entries_of self.now.of self.now.bytes.now) }
    {
        for j in from..self.of.count {
            if !before(self.key_of(j), key) {
                return j;
            }
        }
        self.of.count
    }

    // Whether the entry at the key's place has the key: its place, or the place where it would stand.
    #[inline(always)]
    pub fn met(&self, i: usize, key: Key) -> Result<usize, usize>
        requires { i ≡ below (key_of_entry self.now.of) (key_number key) (entries_of self.now.of self.now.bytes.now) }
        ensures { Sought (key_of_entry self.now.of) (key_number key) (entries_of self.now.of self.now.bytes.now) result }
    {
        if i < self.of.count && equal(self.key_of(i), key) {
            Ok(i)
        } else {
            Err(i)
        }
    }

    // Looks for a key, as a slice's `binary_search` does.
    pub fn look(&self, key: Key) -> Result<usize, usize>
        requires { AscFrom (key_of_entry self.now.of) 0 (entries_of self.now.of self.now.bytes.now) }
        ensures { Sought (key_of_entry self.now.of) (key_number key) (entries_of self.now.of self.now.bytes.now) result }
    {
        self.met(self.place(key), key)
    }

    // Whether the keys ascend strictly.
    #[inline(always)]
    pub fn ascending(&self) -> bool
        ensures { result ≡ ascends (key_of_entry self.now.of) 0 (entries_of self.now.of self.now.bytes.now) }
    {
        for i in 1..self.of.count {
            if !before(self.key_of(i - 1), self.key_of(i)) {
                return false;
            }
        }
        true
    }
}
