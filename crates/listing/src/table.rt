ghost use Rattle.std.specs.Prelude.{◌≡◌, ◌<◌, ◌≤◌, IfOk, length, get_or, slice_set};

use heap_words::{Access, Config, NoMemory};
use std::alloc::Global;

// How many machines there are at most.
const MACHINES: usize = 12;

/// Words of a region that a machine has taken and that are no object yet: from one address up to another, 0 and 0 where it has none.
#[derive(Clone, Copy)]
pub struct Room {
    /// The first address.
    pub from: u64,
    /// The address behind the last one.
    pub to: u64,
    /// Whether they are carved, and not in hand yet.
    pub is_carved: bool,
}

impl Room {
    /// No words.
    pub const NONE: Room = Room {
        from: 0,
        to: 0,
        is_carved: false,
    };
}

/// The words of a heap as they stand after some event, beside the heap itself, and the room of each machine.
#[derive(Drop)]
pub struct Table {
    config: Config,
    words: Vec<u64>,
    rooms: [Room; 12],
}

// Puts the words of a table in the place of these.
fn copy_words(words: &mut Vec<u64>, table: &Table) {
    for at in 0..words.len() {
        words[at] = table.word(at);
    }
}

impl Table {
    ghost use Rattle.listing.specs.Mirror.{words_of, config_of, put_at, after_access};

    /// A table of this heap's words, all 0.
    pub fn open(alloc: Global, config: Config) -> Result<Table, NoMemory>
        ensures config { IfOk result (λ table. config_of table ≡ config) }
    {
        let mut words = Vec::new(alloc);
        for _ in 0..config.table_words() {
            let Ok(()) = words.push(0) else {
                return Err(NoMemory);
            };
        }
        Ok(Table {
            config,
            words,
            rooms: [Room::NONE; 12],
        })
    }

    /// The heap.
    pub fn config(&self) -> Config
        ensures { result ≡ config_of self.now }
    {
        self.config
    }

    /// The word at an index, or 0 beyond the end.
    pub fn word(&self, at: usize) -> u64
        ensures { result ≡ get_or (words_of self.now) at 0 }
    {
        if at < self.words.len() {
            self.words[at]
        } else {
            0
        }
    }

    /// Puts a word at an index; beyond the end nothing happens.
    pub fn put(&mut self, at: usize, word: u64)
        ensures words { words_of self.new ≡ put_at (words_of self.old) at word }
        ensures config { config_of self.new ≡ config_of self.old }
    {
        if at < self.words.len() {
            self.words[at] = word;
        }
    }

    /// Makes of the word what an access made of it that found this.
    pub fn take(&mut self, access: Access, found: u64)
        ensures words { words_of self.new ≡ after_access (words_of self.old) access found }
        ensures config { config_of self.new ≡ config_of self.old }
    {
        self.put(access.at(), access.made(found));
    }

    /// The room of a machine.
    pub fn room(&self, seat: usize) -> Room {
        self.rooms[seat % MACHINES]
    }

    /// Takes down what room a machine has from now on.
    pub fn put_room(&mut self, seat: usize, room: Room)
        ensures words { words_of self.new ≡ words_of self.old }
        ensures config { config_of self.new ≡ config_of self.old }
    {
        self.rooms[seat % MACHINES] = room;
    }

    /// Becomes like another table of the same heap.
    pub fn copy(&mut self, other: &Table)
        ensures config { config_of self.new ≡ config_of self.old }
    {
        copy_words(&mut self.words, other);
        self.rooms = other.rooms;
    }

    /// How many words of the image differ from those of another table of the same heap.
    pub fn changed(&self, other: &Table) -> u64 {
        let mut count: u64 = 0;
        for at in self.config.image_start()..self.words.len() {
            if self.word(at) != other.word(at) {
                count = count.saturating_add(1);
            }
        }
        count
    }
}
