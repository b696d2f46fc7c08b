//! Which events are listed.

use heap_words::{Config, Place};
use listing::Row;
use trace_reading::number_in;

// The most bytes of a text that is looked for.
const MOST: usize = 64;

// The most machines, threads and helpers of a heap, and the greatest number by which one may be named.
const MACHINES: u64 = 12;

const THREADS: u64 = 8;

const HELPERS: u64 = 3;

const MOST_NUMBER: u64 = 999_999_999;

/// A text that is looked for in lines.
#[derive(Clone, Copy)]
pub struct Needle {
    bytes: [u8; 64],
    used: usize,
}

impl Needle {
    /// This text; None where it is empty or longer than 64 bytes.
    pub fn of(text: &[u8]) -> Option<Needle> {
        if text.is_empty() || text.len() > MOST {
            return None;
        }
        let mut bytes = [0; 64];
        for at in 0..text.len() {
            bytes[at % MOST] = text[at];
        }
        Some(Needle {
            bytes,
            used: text.len(),
        })
    }

    /// The text.
    pub fn text(&self) -> &[u8] {
        &self.bytes[..self.used.min(MOST)]
    }
}

/// Which events are listed: those of some machines, at some places, of an object or a word, or of calls alone.
#[derive(Clone, Copy)]
pub struct Filter {
    // The machines by their numbers, counted from 0, and by their names; all where none is named.
    machines: [bool; 12],
    threads: [bool; 8],
    helpers: [bool; 3],
    control: bool,
    some_machines: bool,
    // A machine that was named and that no heap has.
    beyond: Option<Stranger>,
    // The places; all where none is named.
    places: [bool; 87],
    some_places: bool,
    /// A code that was given and that no place has.
    pub no_place: Option<Needle>,
    /// The object that a line has to name.
    pub object: Option<Needle>,
    /// The word that an access has to be of.
    pub word: Option<Needle>,
    /// Whether only what calls say is listed.
    pub calls: bool,
}

/// A machine that the heap does not have, by its number from 1: in a schedule, among the threads, or among the helpers.
#[derive(Clone, Copy)]
pub enum Stranger {
    /// A machine.
    Machine(u64),
    /// A thread.
    Thread(u64),
    /// A helper.
    Helper(u64),
}

impl Stranger {
    /// Puts it by its name.
    pub fn put(self, row: &mut Row) {
        let (role, number) = match self {
            Stranger::Machine(number) => (b"machine ".as_slice(), number),
            Stranger::Thread(number) => (b"thread ".as_slice(), number),
            Stranger::Helper(number) => (b"helper ".as_slice(), number),
        };
        row.put(role);
        row.put_number(number);
    }
}

// The text up to the next comma, from a byte on.
fn piece_at(text: &[u8], from: usize) -> &[u8] {
    let rest = &text[from.min(text.len())..];
    for at in 0..rest.len() {
        if rest[at] == b',' {
            return &rest[..at];
        }
    }
    rest
}

// What stands behind a text at the front.
fn behind<'a>(front: &[u8], text: &'a [u8]) -> Option<&'a [u8]> {
    if text.len() < front.len() {
        return None;
    }
    for at in 0..front.len() {
        if text[at] != front[at] {
            return None;
        }
    }
    Some(&text[front.len()..])
}

impl Filter {
    /// All events.
    pub fn all() -> Filter {
        Filter {
            machines: [false; 12],
            threads: [false; 8],
            helpers: [false; 3],
            control: false,
            some_machines: false,
            beyond: None,
            places: [false; 87],
            some_places: false,
            no_place: None,
            object: None,
            word: None,
            calls: false,
        }
    }

    // Takes a thread by its number.
    fn take_thread(&mut self, thread: u64) {
        if thread > THREADS {
            self.beyond = Some(Stranger::Thread(thread));
        } else {
            self.threads[(thread.saturating_sub(1) % THREADS) as usize] = true;
        }
    }

    // Takes a helper by its number.
    fn take_helper(&mut self, helper: u64) {
        if helper > HELPERS {
            self.beyond = Some(Stranger::Helper(helper));
        } else {
            self.helpers[(helper.saturating_sub(1) % HELPERS) as usize] = true;
        }
    }

    // Takes a machine by its number in a schedule.
    fn take_number(&mut self, machine: u64) {
        if machine > MACHINES {
            self.beyond = Some(Stranger::Machine(machine));
        } else {
            self.machines[(machine.saturating_sub(1) % MACHINES) as usize] = true;
        }
    }

    // Takes a machine by its number in a schedule or by its name.
    fn take_machine(&mut self, name: &[u8]) -> Option<()> {
        self.some_machines = true;
        if let Some(number) = behind(b"helper ", name) {
            self.take_helper(number_in(MOST_NUMBER, number)?);
        } else if let Some(number) = behind(b"thread ", name) {
            self.take_thread(number_in(MOST_NUMBER, number)?);
        } else if name == b"control".as_slice() {
            self.control = true;
        } else {
            self.take_number(number_in(MOST_NUMBER, name)?);
        }
        Some(())
    }

    // Takes a place by its code.
    fn take_place(&mut self, code: &[u8]) -> Option<()> {
        let [one, two] = code else {
            return None;
        };
        let Some(place) = Place::of([*one, *two]) else {
            self.no_place = Needle::of(code);
            return None;
        };
        self.some_places = true;
        self.places[place as usize % 87] = true;
        Some(())
    }

    /// Takes machines by their numbers in a schedule or their names, with commas between them. None for any other text.
    pub fn take_machines(&mut self, text: &[u8]) -> Option<()> {
        let mut from: usize = 0;
        for _ in 0..32 {
            if from <= text.len() {
                let piece = piece_at(text, from);
                self.take_machine(piece)?;
                from = from.saturating_add(piece.len()).saturating_add(1);
            }
        }
        if from <= text.len() { None } else { Some(()) }
    }

    /// Takes places by their codes, with commas between them. None for any other text.
    pub fn take_places(&mut self, text: &[u8]) -> Option<()> {
        let mut from: usize = 0;
        for _ in 0..96 {
            if from <= text.len() {
                let piece = piece_at(text, from);
                self.take_place(piece)?;
                from = from.saturating_add(piece.len()).saturating_add(1);
            }
        }
        if from <= text.len() { None } else { Some(()) }
    }

    /// Whether lines are listed by what they name or say, and not by their machines and places alone.
    pub fn has_needle(&self) -> bool {
        self.calls || self.object.is_some() || self.word.is_some()
    }

    /// The text that is looked for, if there is one.
    pub fn name(&self) -> Option<Needle> {
        match self.word {
            Some(word) => Some(word),
            None => self.object,
        }
    }

    // The first machine that is named and that the heap does not have, of those with names.
    fn strange_name(&self, config: Config) -> Option<Stranger> {
        for thread in config.mutators()..8 {
            if self.threads[thread % 8] {
                return Some(Stranger::Thread((thread as u64).saturating_add(1)));
            }
        }
        for helper in config.helpers()..3 {
            if self.helpers[helper % 3] {
                return Some(Stranger::Helper((helper as u64).saturating_add(1)));
            }
        }
        None
    }

    /// A machine that is named and that the heap does not have.
    pub fn stranger(&self, config: Config) -> Option<Stranger> {
        if self.beyond.is_some() {
            return self.beyond;
        }
        for seat in config.seats()..12 {
            if self.machines[seat % 12] {
                return Some(Stranger::Machine((seat as u64).saturating_add(1)));
            }
        }
        self.strange_name(config)
    }

    /// Whether events of a machine are listed.
    pub fn has_seat(&self, config: Config, seat: usize) -> bool {
        if !self.some_machines || self.machines[seat % 12] {
            return true;
        }
        let others = config.mutators() + config.helpers();
        if seat >= others {
            return self.control;
        }
        if seat < config.mutators() {
            return self.threads[seat % 8];
        }
        self.helpers[(seat - config.mutators()) % 3]
    }

    /// Whether events at a place are listed.
    pub fn has_place(&self, place: Place) -> bool {
        !self.some_places || self.places[place as usize % 87]
    }

    /// Whether a line is listed by what it names: its words stand from one column on.
    pub fn has_line(&self, row: &Row, access: usize) -> bool {
        let names = match &self.object {
            Some(object) => row.has_word(object.text(), access),
            None => true,
        };
        let is_of = match &self.word {
            Some(word) => row.has_word(word.text(), access),
            None => true,
        };
        names && is_of
    }
}
