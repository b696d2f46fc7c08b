//! Pauses: why each was made, and what it has done to the words.

use crate::event::Event;
use crate::pieces::{piece_at, used};
use crate::row::Row;
use crate::table::Table;
use crate::terms::put_regions;
use crate::view::{heap_word, name_at};
use heap_words::phase::{EVACUATION, IDLE, MARKING, UPDATING};
use heap_words::{Config, NoMemory, Place, forwarded};
use regions::mark_words;
use std::alloc::Global;

// The bit of the copiers' word that says that one has found no room.
const NO_ROOM: u64 = 9223372036854775808;

/// Why a pause was made.
#[derive(Clone, Copy)]
pub enum Cause {
    /// A cycle was asked for.
    Asked,
    /// An allocation waits.
    Waits,
    /// Few regions are free.
    FewFree,
    /// All units of the phase's work are claimed.
    AllClaimed,
}

impl Cause {
    /// The cause in words.
    pub fn text(self) -> &'static [u8] {
        match self {
            Cause::Asked => b"a cycle was asked for",
            Cause::Waits => b"an allocation waits",
            Cause::FewFree => b"few regions are free",
            Cause::AllClaimed => b"all units are claimed",
        }
    }
}

/// What is told of a pause.
#[derive(Clone, Copy)]
pub struct Told {
    /// Its number, from 1.
    pub number: u64,
    /// Why the control wanted it.
    pub cause: Cause,
    /// Whether an allocation waited when the words were loaded.
    pub waits: bool,
    /// Whether a copier had found no room.
    pub no_room: bool,
    /// The phase before and after it.
    pub before: u64,
    /// The phase after it.
    pub after: u64,
    /// The regions that are free behind it and were not before.
    pub freed: u64,
    /// The collection set behind it.
    pub set: u64,
    /// The objects whose current copy lies at another place behind it.
    pub moved: u64,
    /// The requests that were answered with an object.
    pub answered: u64,
    /// The requests that were answered `full`.
    pub refused: u64,
    /// The words of the image that are other ones behind it.
    pub changed: u64,
    /// The words of the image.
    pub words: u64,
    /// Whether a full collection has cleared the marks of a cycle.
    pub full: bool,
}

impl Told {
    /// What the pause did.
    pub fn deed(&self) -> &'static [u8] {
        match (self.before, self.after, self.waits) {
            (IDLE, IDLE, _) => b"a full collection",
            (IDLE, _, _) => b"marking begins",
            (MARKING, EVACUATION, _) => b"marking ends, evacuation begins",
            (MARKING, _, false) => b"marking ends, no region is chosen",
            (MARKING, _, true) if self.full => {
                b"marking ends, the cycle is finished, then a full collection"
            }
            (MARKING, _, true) => b"marking ends, the cycle is finished",
            (EVACUATION, UPDATING, _) => b"updating begins",
            (UPDATING, _, false) => b"updating ends, the set is freed",
            _ if self.full => b"the cycle is finished, then a full collection",
            _ => b"the cycle is finished",
        }
    }
}

/// What is known of the pauses so far.
#[derive(Drop)]
pub struct Pauses {
    // The words when the last pause loaded the first.
    before: Table,
    number: u64,
    cause: Cause,
    // Whether the pause has loaded a word.
    has_loaded: bool,
    // What the control's last event was outside of pauses, and what it has found.
    looked: Option<Place>,
    found: u64,
}

impl Pauses {
    /// No pause yet.
    pub fn open(alloc: Global, config: Config) -> Result<Pauses, NoMemory> {
        let before = Table::open(alloc, config)?;
        Ok(Pauses {
            before,
            number: 0,
            cause: Cause::Asked,
            has_loaded: false,
            looked: None,
            found: 0,
        })
    }

    /// The words before the last pause.
    pub fn before(&self) -> &Table {
        &self.before
    }

    /// The pauses that were wanted so far.
    pub fn number(&self) -> u64 {
        self.number
    }

    // By what the control has looked at last.
    fn cause_now(&self) -> Cause {
        match self.looked {
            Some(Place::I1) if self.found % 4 >= 2 => Cause::Waits,
            Some(Place::I1) => Cause::Asked,
            Some(Place::I2) => Cause::FewFree,
            _ => Cause::AllClaimed,
        }
    }

    // Begins a pause.
    fn begin(&mut self) {
        self.cause = self.cause_now();
        self.number = self.number.saturating_add(1);
        self.has_loaded = false;
    }

    /// Takes down an event of the control; the words are those after it.
    pub fn note(&mut self, table: &Table, event: &Event) {
        match event.place {
            Place::P1 => self.begin(),
            Place::PL => {
                if !self.has_loaded {
                    self.before.copy(table);
                    self.has_loaded = true;
                }
            }
            Place::PS => {}
            place => {
                self.looked = Some(place);
                self.found = event.found;
            }
        }
    }

    // How many mutators had no answer before and have one of these now: `full`, or an object.
    fn answers(&self, table: &Table, full: bool) -> u64 {
        let config = table.config();
        let mut count: u64 = 0;
        for mutator in 0..config.mutators() {
            let at = config.answer_at(mutator);
            let now = table.word(at);
            if self.before.word(at) == 0 && now > 0 && (now == 1) == full {
                count = count.saturating_add(1);
            }
        }
        count
    }

    /// What is told of the last pause behind its end.
    pub fn told(&self, table: &Table) -> Told {
        let config = table.config();
        let free = config.free_at();
        let answered = self.answers(table, false);
        Told {
            number: self.number,
            cause: self.cause,
            waits: self.before.word(config.ask_at()) % 4 >= 2,
            no_room: self.before.word(config.evac_at()) >= NO_ROOM,
            before: self.before.word(config.phase_at()),
            after: table.word(config.phase_at()),
            freed: table.word(free) & !self.before.word(free),
            set: table.word(config.cset_at()),
            moved: moved(&self.before, table).saturating_sub(answered),
            answered,
            refused: self.answers(table, true),
            changed: table.changed(&self.before),
            words: (config.table_words() as u64).saturating_sub(config.image_start() as u64),
            full: has_marks(&self.before) && !has_marks(table),
        }
    }
}

// Whether an object is marked. A cycle that is finished leaves its marks, and a full collection leaves none.
fn has_marks(table: &Table) -> bool {
    let config = table.config();
    let end = config.heap_start();
    for at in end.saturating_sub(2 * mark_words(config))..end {
        if table.word(at) > 0 {
            return true;
        }
    }
    false
}

// The first piece of a region at an address or behind it, from a piece on; where the region ends before that, its end.
fn piece_from(table: &Table, from: u64, end: u64, address: u64) -> u64 {
    let mut at = from;
    for _ in 0..1024 {
        if at >= address {
            return at;
        }
        at = match piece_at(table, at, end) {
            Some(piece) => piece.next,
            None => return end,
        };
    }
    at
}

// Whether an object of the name of the one at an address stands there.
fn is_there(table: &Table, at: u64, end: u64, after: &Table) -> bool {
    match piece_at(table, at, end) {
        Some(piece) => piece.is_object() && name_at(table, at) == name_at(after, at),
        None => false,
    }
}

// How many current copies lie in a region where no object of their name lay before.
fn moved_into(before: &Table, after: &Table, region: usize) -> u64 {
    let mut count: u64 = 0;
    let (mut at, end) = used(after, region);
    let (mut old, old_end) = used(before, region);
    for _ in 0..1024 {
        let Some(piece) = piece_at(after, at, end) else {
            return count;
        };
        old = piece_from(before, old, old_end, at);
        let stays = old == at && is_there(before, old, old_end, after);
        if piece.is_object() && !stays && !forwarded(heap_word(after, at)) {
            count = count.saturating_add(1);
        }
        at = piece.next;
    }
    count
}

// How many current copies lie where no object of their name lay before.
fn moved(before: &Table, after: &Table) -> u64 {
    let mut count: u64 = 0;
    for region in 0..after.config().regions() {
        count = count.saturating_add(moved_into(before, after, region));
    }
    count
}

// Puts `; ` and how many things, where there are any.
fn put_some(row: &mut Row, number: u64, thing: &[u8], what: &[u8]) {
    if number > 0 {
        row.put(b"; ");
        row.put_count(number, thing);
        row.put(what);
    }
}

// Puts why a pause was made.
fn put_cause(row: &mut Row, told: &Told) {
    row.put(told.cause.text());
    if told.no_room && told.before == EVACUATION {
        row.put(b", a copier found no room");
    }
    if told.waits && !matches!(told.cause, Cause::Waits) {
        row.put(b", an allocation waits");
    }
}

/// Puts a pause in words.
pub fn put_pause(row: &mut Row, config: Config, told: &Told) {
    row.put_with(b"pause ", told.number);
    row.put(b": ");
    put_cause(row, told);
    row.put(b"; ");
    row.put(told.deed());
    row.put_with(b"; phase ", told.before);
    row.put_with(b" to ", told.after);
    if told.set > 0 && told.after == EVACUATION {
        row.put(b"; set ");
        put_regions(row, config, told.set);
    }
    if told.freed > 0 {
        row.put(b"; frees ");
        put_regions(row, config, told.freed);
    }
    put_some(row, told.moved, b"object", b" copied");
    put_some(row, told.answered, b"request", b" answered");
    put_some(row, told.refused, b"request", b" refused");
    row.put_with(b"; ", told.changed);
    row.put(b" of ");
    row.put_count(told.words, b"word");
    row.put(b" changed");
}
