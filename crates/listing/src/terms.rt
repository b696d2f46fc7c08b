//! Words of the heap, values and commands as the listing spells them.

use crate::called::{Owner, owner_of, text_of};
use crate::copies::is_moving;
use crate::pieces::piece_with;
use crate::row::Row;
use crate::table::Table;
use crate::view::{Part, Reading, base, name_at, part_of, reading_of, reading_of_part, region_of};
use heap_words::{
    Access, Config, Item, WordName, count_of, end_of, filler_words, forwarded, forwardee, next_of,
    nums_of, refs_of, request_count, request_shape, thread_of,
};
use shen_graph::{Name, Reply};

/// Puts the machine of a number, counted from 0.
pub fn put_machine(row: &mut Row, config: Config, number: usize) {
    if number < config.mutators() {
        row.put_with(b"thread ", number as u64 + 1);
    } else if number < config.mutators() + config.helpers() {
        row.put_with(b"helper ", (number - config.mutators()) as u64 + 1);
    } else {
        row.put(b"control");
    }
}

/// Puts the name of an object.
pub fn put_name(row: &mut Row, name: Name) {
    row.put_number(name.thread as u64);
    row.put_with(b".", name.count as u64);
}

/// Puts where an address lies: its region, and the words of the region before it.
pub fn put_place(row: &mut Row, table: &Table, address: u64) {
    put_place_in(row, table, address, region_of(table, address));
}

// Puts the same of an address of a region, or right behind it.
fn put_place_in(row: &mut Row, table: &Table, address: u64, region: Option<usize>) {
    row.put(b"@");
    match region {
        Some(region) => {
            row.put_number(region as u64);
            row.put_with(b"+", address.saturating_sub(base(table, region)));
        }
        None => row.put_number(address),
    }
}

// Puts the name of the object at an address, and where it lies if it has moved or is to move.
fn put_object(row: &mut Row, table: &Table, address: u64) {
    put_name(row, name_at(table, address));
    if is_moving(table, address) {
        put_place(row, table, address);
    }
}

/// Puts a reference: the name of the object at the address, with its place where the object moves; or - for null.
pub fn put_reference(row: &mut Row, table: &Table, address: u64) {
    if address == 0 {
        row.put(b"-");
    } else if region_of(table, address).is_some() {
        put_object(row, table, address);
    } else {
        row.put_number(address);
    }
}

/// Puts a set of regions, which are counted from 0.
pub fn put_regions(row: &mut Row, config: Config, set: u64) {
    row.put(b"{");
    let mut first = true;
    let mut left = set;
    for region in 0..config.regions() {
        if left % 2 == 1 {
            if !first {
                row.put(b" ");
            }
            row.put_number(region as u64);
            first = false;
        }
        left /= 2;
    }
    row.put(b"}");
}

// Puts the objects that are marked in a word of marks, whose bit 0 is that of the first address.
fn put_marks(row: &mut Row, table: &Table, first: u64, marks: u64) {
    row.put(b"{");
    let mut is_first = true;
    let mut left = marks;
    for bit in 0..64u64 {
        if left % 2 == 1 {
            if !is_first {
                row.put(b" ");
            }
            put_reference(row, table, first.saturating_add(bit));
            is_first = false;
        }
        left /= 2;
    }
    row.put(b"}");
}

// Puts a header: of an old copy where the object's current one lies, and of words that only fill how many they are.
fn put_header(row: &mut Row, table: &Table, header: u64) {
    if forwarded(header) {
        row.put(b"copy ");
        put_place(row, table, forwardee(header));
    } else if let Some(words) = filler_words(header) {
        row.put_count(words, b"word");
        row.put(b" that only fill");
    } else {
        row.put_number(header);
    }
}

// Puts where the free words of a buffer begin and end.
fn put_buffer(row: &mut Row, table: &Table, word: u64) {
    if word == 0 {
        row.put(b"none");
        return;
    }
    let region = region_of(table, end_of(word).saturating_sub(1));
    put_place_in(row, table, next_of(word), region);
    row.put(b" to ");
    put_place_in(row, table, end_of(word), region);
}

// The bit of the copiers' word that says that one has found no room.
const NO_ROOM: u64 = 9223372036854775808;

// Puts how many machines copy, and whether one has found no room.
fn put_copiers(row: &mut Row, word: u64) {
    row.put_number(word % NO_ROOM);
    if word >= NO_ROOM {
        row.put(b", no room");
    }
}

// Puts what is asked for.
fn put_ask(row: &mut Row, word: u64) {
    row.put(match word % 4 {
        0 => b"nothing".as_slice(),
        1 => b"a cycle".as_slice(),
        2 => b"room".as_slice(),
        _ => b"a cycle, room".as_slice(),
    });
}

// Puts a shape: references and numbers.
fn put_shape(row: &mut Row, shape: u64) {
    row.put_number(refs_of(shape));
    row.put_with(b"/", nums_of(shape));
}

// Puts a request.
fn put_request(row: &mut Row, request: u64) {
    if request == 0 {
        row.put(b"none");
    } else {
        row.put_with(b"object ", request_count(request) as u64);
        row.put(b" of ");
        put_shape(row, request_shape(request));
    }
}

// Puts an answer.
fn put_answer(row: &mut Row, table: &Table, answer: u64) {
    match answer {
        0 => row.put(b"none"),
        1 => row.put(b"full"),
        _ => put_reference(row, table, answer),
    }
}

/// Puts a word as it is to be read.
pub fn put_value(row: &mut Row, table: &Table, kind: Reading, word: u64) {
    match kind {
        Reading::Number => row.put_number(word),
        Reading::Header => put_header(row, table, word),
        Reading::Copiers => put_copiers(row, word),
        Reading::Reference => put_reference(row, table, word),
        Reading::Answer => put_answer(row, table, word),
        Reading::Regions => put_regions(row, table.config(), word),
        Reading::Buffer => put_buffer(row, table, word),
        Reading::Shared if word == 0 => row.put(b"none"),
        Reading::Shared => row.put_number(word.saturating_sub(1)),
        Reading::Ask => put_ask(row, word),
        Reading::State if word == 0 => row.put(b"out"),
        Reading::State => row.put(b"in"),
        Reading::Request => put_request(row, word),
        Reading::Shape => put_shape(row, word),
        Reading::Name if word == 0 => row.put(b"0"),
        Reading::Name => put_name(
            row,
            Name {
                thread: thread_of(word),
                count: count_of(word),
            },
        ),
        Reading::Marks { first } => put_marks(row, table, first, word),
    }
}

// Puts whose a word is.
fn put_of_thread(row: &mut Row, mutator: usize) {
    row.put_with(b" of thread ", (mutator as u64).saturating_add(1));
}

// Puts the name of a word outside the heap.
fn put_word(row: &mut Row, config: Config, name: WordName) {
    row.put(text_of(name));
    match owner_of(name) {
        Owner::Heap => {}
        Owner::Region(number) | Owner::Marks(number) => row.put_with(b" ", number as u64),
        Owner::Seat(seat) => {
            row.put(b" of ");
            put_machine(row, config, seat);
        }
        Owner::Thread(mutator) => put_of_thread(row, mutator),
        Owner::Several(mutator, index) => {
            row.put_with(b" ", index as u64);
            put_of_thread(row, mutator);
        }
        Owner::Address(address) => row.put_with(b" ", address),
    }
}

// Puts a part of an object.
fn put_part(row: &mut Row, part: Part) {
    row.put(part.text());
    if let Some(index) = part.index() {
        row.put_with(b" ", index);
    }
}

/// Where a word of the heap lies.
#[derive(Clone, Copy)]
pub enum Within {
    /// In the object at this address.
    Object(u64),
    /// In the room at this address, which is to become an object.
    Room(u64),
    /// In the room at this address, which is to become a copy of an object.
    Copy(u64),
    /// In the words at this address that only fill, or shall.
    Filler(u64),
    /// In no object, or that is not told.
    Elsewhere,
}

// Puts the word at an address of what lies at `at`, up to that, and says how it is to be read.
fn put_inside(row: &mut Row, table: &Table, at: u64, address: u64) -> Reading {
    let part = part_of(table, at, address);
    put_part(row, part);
    row.put(b" of ");
    reading_of_part(part)
}

// Puts a word of the heap by its address, and says how it is to be read.
fn put_heap_word(row: &mut Row, table: &Table, address: u64, within: Within) -> Reading {
    match within {
        Within::Object(object) => {
            let kind = put_inside(row, table, object, address);
            put_object(row, table, object);
            kind
        }
        Within::Room(room) => {
            let kind = put_inside(row, table, room, address);
            row.put(b"the new object");
            kind
        }
        Within::Copy(room) => {
            let kind = put_inside(row, table, room, address);
            row.put(b"the copy ");
            put_place(row, table, room);
            kind
        }
        Within::Filler(filler) if address == filler => {
            row.put(b"header of words ");
            put_place(row, table, address);
            Reading::Header
        }
        _ => {
            row.put(b"word ");
            put_place(row, table, address);
            Reading::Number
        }
    }
}

// Puts the word at an index of the table, and says how it is to be read.
fn put_word_at(row: &mut Row, table: &Table, at: usize, within: Within) -> Reading {
    let config = table.config();
    if at >= config.table_words() {
        row.put(b"?");
        return Reading::Number;
    }
    match config.name_of(at) {
        WordName::Heap { address } => put_heap_word(row, table, address, within),
        name => {
            put_word(row, config, name);
            reading_of(config, name)
        }
    }
}

// The address of the heap's word at an index of the table.
fn address_at(config: Config, at: usize) -> Option<u64> {
    if at >= config.table_words() {
        return None;
    }
    match config.name_of(at) {
        WordName::Heap { address } => Some(address),
        _ => None,
    }
}

/// Where the word at an index of the table lies: in an object, or in words that only fill, if it is one of the heap.
pub fn look_within(table: &Table, at: usize) -> Within {
    match address_at(table.config(), at) {
        Some(address) => match piece_with(table, address) {
            Some(piece) if piece.is_object() => Within::Object(piece.at),
            Some(piece) if piece.is_filler() => Within::Filler(piece.at),
            _ => Within::Elsewhere,
        },
        None => Within::Elsewhere,
    }
}

// Puts a verb and the word that it is of, and says how that is to be read.
fn put_verb(row: &mut Row, table: &Table, verb: &[u8], at: usize, within: Within) -> Reading {
    row.put(verb);
    row.put(b" ");
    put_word_at(row, table, at, within)
}

/// Puts an access with its values, and says how its word is to be read.
pub fn put_access(row: &mut Row, table: &Table, access: Access, within: Within) -> Reading {
    let (verb, value) = match access {
        Access::Load { .. } => (b"load".as_slice(), None),
        Access::Store { value, .. } => (b"store".as_slice(), Some(value)),
        Access::Swap { value, .. } => (b"swap".as_slice(), Some(value)),
        Access::Add { value, .. } => (b"add to".as_slice(), Some(value)),
        Access::Sub { value, .. } => (b"subtract from".as_slice(), Some(value)),
        Access::And { value, .. } => (b"clear in".as_slice(), Some(!value)),
        Access::Or { value, .. } => (b"set in".as_slice(), Some(value)),
        Access::Exchange { value, .. } => (b"exchange".as_slice(), Some(value)),
    };
    let kind = put_verb(row, table, verb, access.at(), within);
    if let Some(value) = value {
        row.put(b": ");
        if let Access::Exchange { expect, .. } = access {
            put_value(row, table, kind, expect);
            row.put(b" to ");
            put_value(row, table, kind, value);
        } else {
            put_value(row, table, kind, value);
        }
    }
    kind
}

/// Puts a reply.
pub fn put_reply(row: &mut Row, reply: Reply) {
    match reply {
        Reply::Ref(name) => put_name(row, name),
        Reply::Null => row.put(b"-"),
        Reply::Ok => row.put(b"ok"),
        Reply::Yes => row.put(b"yes"),
        Reply::No => row.put(b"no"),
        Reply::Number(value) => row.put_number(value),
        Reply::Bad => row.put(b"bad"),
        Reply::Full => row.put(b"full"),
        Reply::At(address) => {
            row.put_with(b"@", address);
        }
    }
}

/// Puts an item of a schedule as a trace spells it.
pub fn put_item(row: &mut Row, item: Item) {
    match item {
        Item::Steps { number, count } => {
            row.put_number((number as u64).saturating_add(1));
            row.put_with(b":", count);
        }
        Item::Until { number, place } => {
            row.put_number((number as u64).saturating_add(1));
            row.put(b"@");
            row.put(&place.code());
        }
        Item::Replies { number, count } => {
            row.put_number((number as u64).saturating_add(1));
            row.put_with(b"=", count);
        }
    }
}
