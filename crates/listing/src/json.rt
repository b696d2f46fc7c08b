//! Words, values and accesses as JSON. What is put is ASCII, without quotes and backslashes in texts.

use crate::called::{Owner, kind_of, owner_of};
use crate::pauses::Told;
use crate::row::Row;
use crate::table::Table;
use crate::terms::{Within, put_name};
use crate::view::{
    Part, Reading, base, heap_word, name_at, part_of, reading_of, reading_of_part, region_of,
};
use heap_words::{
    Access, Config, WordName, count_of, end_of, filler_words, forwarded, forwardee, next_of,
    nums_of, refs_of, request_count, request_shape, thread_of,
};
use shen_graph::Name;

// Puts a comma unless the row stands behind an opening bracket or a line's beginning.
fn put_comma(row: &mut Row) {
    if !matches!(row.last(), b'{' | b'[' | b' ') {
        row.put(b",");
    }
}

/// Puts the key of a member, behind a comma where one is before it.
pub fn json_key(row: &mut Row, key: &[u8]) {
    put_comma(row);
    row.put(b"\"");
    row.put(key);
    row.put(b"\":");
}

/// Puts a text that has no quotes and backslashes as an element, or behind a key.
pub fn json_text(row: &mut Row, key: &[u8], text: &[u8]) {
    json_key(row, key);
    row.put(b"\"");
    row.put(text);
    row.put(b"\"");
}

/// Puts a member that is a number.
pub fn json_number(row: &mut Row, key: &[u8], number: u64) {
    json_key(row, key);
    row.put_number(number);
}

/// Puts a member that is true or false.
pub fn json_flag(row: &mut Row, key: &[u8], is_so: bool) {
    json_key(row, key);
    row.put(if is_so {
        b"true".as_slice()
    } else {
        b"false".as_slice()
    });
}

// Puts a member that is the name of an object.
fn json_name(row: &mut Row, key: &[u8], name: Name) {
    json_key(row, key);
    row.put(b"\"");
    put_name(row, name);
    row.put(b"\"");
}

/// Puts members for an address: its region, and the words of the region before it.
pub fn json_place_of(row: &mut Row, table: &Table, address: u64) {
    if let Some(region) = region_of(table, address) {
        json_number(row, b"region", region as u64);
        json_number(row, b"offset", address.saturating_sub(base(table, region)));
    }
}

/// Puts members for a reference that is not null: the object, and where this copy of it lies.
pub fn json_object_at(row: &mut Row, table: &Table, address: u64) {
    if region_of(table, address).is_some() {
        json_name(row, b"object", name_at(table, address));
        json_place_of(row, table, address);
    }
}

/// Puts a reference: null, or the object and where this copy of it lies.
pub fn json_reference(row: &mut Row, table: &Table, address: u64) {
    if address == 0 {
        row.put(b"null");
    } else {
        row.put(b"{");
        json_object_at(row, table, address);
        row.put(b"}");
    }
}

/// Puts two members that are lists: the references and the numbers of the object at an address, at most 16 of each.
pub fn json_field_lists(row: &mut Row, table: &Table, address: u64) {
    let shape = heap_word(table, address.saturating_add(1));
    let refs = refs_of(shape).min(16);
    let first = address.saturating_add(3);
    json_key(row, b"fields");
    row.put(b"[");
    for index in 0..refs {
        put_comma(row);
        json_reference(row, table, heap_word(table, first.saturating_add(index)));
    }
    row.put(b"]");
    json_key(row, b"numbers");
    row.put(b"[");
    for index in 0..nums_of(shape).min(16) {
        put_comma(row);
        let at = first.saturating_add(refs).saturating_add(index);
        row.put_number(heap_word(table, at));
    }
    row.put(b"]");
}

/// Puts a member that is the list of the regions of a set.
pub fn json_regions(row: &mut Row, config: Config, key: &[u8], set: u64) {
    json_key(row, key);
    row.put(b"[");
    let mut left = set;
    for region in 0..config.regions() {
        if left % 2 == 1 {
            put_comma(row);
            row.put_number(region as u64);
        }
        left /= 2;
    }
    row.put(b"]");
}

// Puts the member that is the list of the objects that a word of marks marks.
fn json_marks(row: &mut Row, table: &Table, first: u64, marks: u64) {
    json_key(row, b"objects");
    row.put(b"[");
    let mut left = marks;
    for bit in 0..64u64 {
        if left % 2 == 1 {
            put_comma(row);
            json_reference(row, table, first.saturating_add(bit));
        }
        left /= 2;
    }
    row.put(b"]");
}

// Puts members for a header: of an old copy where the current one lies, and of words that only fill how many they are.
fn json_header(row: &mut Row, table: &Table, header: u64) {
    if forwarded(header) {
        json_key(row, b"copy");
        row.put(b"{");
        json_place_of(row, table, forwardee(header));
        row.put(b"}");
    } else if let Some(words) = filler_words(header) {
        json_number(row, b"fills", words);
    }
}

// Puts members for the word of a buffer: the region, and where its free words begin and end there.
fn json_buffer(row: &mut Row, table: &Table, word: u64) {
    if let Some(region) = region_of(table, end_of(word).saturating_sub(1)) {
        let first = base(table, region);
        json_number(row, b"region", region as u64);
        json_number(row, b"offset", next_of(word).saturating_sub(first));
        json_number(row, b"end", end_of(word).saturating_sub(first));
    }
}

// The bit of the copiers' word that says that one has found no room.
const NO_ROOM: u64 = 9223372036854775808;

// Puts members for a shape.
fn json_shape(row: &mut Row, shape: u64) {
    json_number(row, b"refs", refs_of(shape));
    json_number(row, b"nums", nums_of(shape));
}

// Puts members for a request.
fn json_request(row: &mut Row, request: u64) {
    if request > 0 {
        json_number(row, b"count", request_count(request) as u64);
        json_shape(row, request_shape(request));
    }
}

// Puts the members of a word by how it is read.
fn json_read(row: &mut Row, table: &Table, kind: Reading, word: u64) {
    match kind {
        Reading::Number => {}
        Reading::Header => json_header(row, table, word),
        Reading::Copiers => {
            json_number(row, b"count", word % NO_ROOM);
            json_flag(row, b"no_room", word >= NO_ROOM);
        }
        Reading::Reference => json_object_at(row, table, word),
        Reading::Answer if word == 1 => json_flag(row, b"full", true),
        Reading::Answer => json_object_at(row, table, word),
        Reading::Regions => json_regions(row, table.config(), b"regions", word),
        Reading::Buffer if word == 0 => {}
        Reading::Buffer => json_buffer(row, table, word),
        Reading::Shared if word == 0 => {}
        Reading::Shared => json_number(row, b"region", word.saturating_sub(1)),
        Reading::Ask => {
            json_flag(row, b"cycle", word % 2 == 1);
            json_flag(row, b"room", word % 4 >= 2);
        }
        Reading::State => json_flag(row, b"in", word > 0),
        Reading::Request => json_request(row, word),
        Reading::Shape => json_shape(row, word),
        Reading::Name if word == 0 => {}
        Reading::Name => json_name(
            row,
            b"object",
            Name {
                thread: thread_of(word),
                count: count_of(word),
            },
        ),
        Reading::Marks { first } => json_marks(row, table, first, word),
    }
}

/// Puts a member that is a word: its number, and what it is read as.
pub fn json_value(row: &mut Row, table: &Table, key: &[u8], kind: Reading, word: u64) {
    json_key(row, key);
    row.put(b"{");
    json_number(row, b"word", word);
    json_read(row, table, kind, word);
    row.put(b"}");
}

// Puts the kind of a word.
fn json_kind(row: &mut Row, kind: &[u8]) {
    json_text(row, b"kind", kind);
}

// Puts a member for a mutator or seat, which is counted from 1.
fn json_counted(row: &mut Row, key: &[u8], number: usize) {
    json_number(row, key, (number as u64).saturating_add(1));
}

// Puts members for the name of a word.
fn json_word(row: &mut Row, table: &Table, name: WordName) {
    json_kind(row, kind_of(name));
    match owner_of(name) {
        Owner::Heap => {}
        Owner::Region(region) => json_number(row, b"region", region as u64),
        Owner::Seat(seat) => json_counted(row, b"machine", seat),
        Owner::Thread(mutator) => json_counted(row, b"thread", mutator),
        Owner::Several(mutator, index) => {
            json_counted(row, b"thread", mutator);
            json_number(row, b"index", index as u64);
        }
        Owner::Marks(word) => json_number(row, b"index", word as u64),
        Owner::Address(address) => json_place_of(row, table, address),
    }
}

// Puts the kind of a word of an object.
fn json_part(row: &mut Row, part: Part) {
    json_kind(row, part.text());
    if let Some(index) = part.index() {
        json_number(row, b"index", index);
    }
}

// Puts members for a word of what lies at an address, and says how it is to be read.
fn json_inside(row: &mut Row, table: &Table, object: u64, address: u64) -> Reading {
    let part = part_of(table, object, address);
    json_part(row, part);
    reading_of_part(part)
}

// Puts members for room of an object or of its copy, with which of the two it is, and says how its word at an address is to be read.
fn json_in_room(row: &mut Row, table: &Table, what: &[u8], room: u64, address: u64) -> Reading {
    let kind = json_inside(row, table, room, address);
    json_flag(row, what, true);
    json_place_of(row, table, room);
    kind
}

// Puts members for a word of the heap by its address, and says how it is to be read.
fn json_heap_word(row: &mut Row, table: &Table, address: u64, within: Within) -> Reading {
    match within {
        Within::Object(object) => {
            let kind = json_inside(row, table, object, address);
            json_object_at(row, table, object);
            kind
        }
        Within::Room(room) => json_in_room(row, table, b"new", room, address),
        Within::Copy(room) => json_in_room(row, table, b"copy", room, address),
        Within::Filler(filler) if address == filler => {
            json_kind(row, b"header");
            json_flag(row, b"filler", true);
            json_place_of(row, table, address);
            Reading::Header
        }
        _ => {
            json_kind(row, b"word");
            json_place_of(row, table, address);
            Reading::Number
        }
    }
}

// Puts members for the word at an index of the table, and says how it is to be read.
fn json_at(row: &mut Row, table: &Table, at: usize, within: Within) -> Reading {
    let config = table.config();
    if at >= config.table_words() {
        return Reading::Number;
    }
    match config.name_of(at) {
        WordName::Heap { address } => json_heap_word(row, table, address, within),
        name => {
            json_word(row, table, name);
            reading_of(config, name)
        }
    }
}

/// Puts the members for an access: the operation, the word, and the values that it brings. It says how the word is to be read.
pub fn json_access(row: &mut Row, table: &Table, access: Access, within: Within) -> Reading {
    let (operation, value) = match access {
        Access::Load { .. } => (b"load".as_slice(), None),
        Access::Store { value, .. } => (b"store".as_slice(), Some(value)),
        Access::Swap { value, .. } => (b"swap".as_slice(), Some(value)),
        Access::Add { value, .. } => (b"add".as_slice(), Some(value)),
        Access::Sub { value, .. } => (b"subtract".as_slice(), Some(value)),
        Access::And { value, .. } => (b"clear".as_slice(), Some(!value)),
        Access::Or { value, .. } => (b"set".as_slice(), Some(value)),
        Access::Exchange { value, .. } => (b"exchange".as_slice(), Some(value)),
    };
    json_text(row, b"operation", operation);
    json_key(row, b"of");
    row.put(b"{");
    let kind = json_at(row, table, access.at(), within);
    row.put(b"}");
    if let Access::Exchange { expect, .. } = access {
        json_value(row, table, b"expect", kind, expect);
    }
    if let Some(value) = value {
        json_value(row, table, b"value", kind, value);
    }
    kind
}

// Puts the members for what a pause did that is counted.
fn json_counts(row: &mut Row, told: &Told) {
    for (key, count) in [
        (b"copied".as_slice(), told.moved),
        (b"answered".as_slice(), told.answered),
        (b"refused".as_slice(), told.refused),
        (b"changed".as_slice(), told.changed),
        (b"words".as_slice(), told.words),
    ] {
        json_number(row, key, count);
    }
}

/// Puts the members for a pause.
pub fn json_pause(row: &mut Row, config: Config, told: &Told) {
    json_number(row, b"pause", told.number);
    json_text(row, b"cause", told.cause.text());
    json_flag(row, b"allocation_waits", told.waits);
    json_flag(row, b"no_room", told.no_room);
    json_text(row, b"did", told.deed());
    json_number(row, b"phase_before", told.before);
    json_number(row, b"phase_after", told.after);
    json_regions(row, config, b"set", told.set);
    json_regions(row, config, b"freed", told.freed);
    json_counts(row, told);
}
