//! The heap as an object of JSON.

use crate::heap::{SLOTS, has_pins, is_black, is_grey, live_and_garbage, phase, pin_word};
use heap_words::phase::EVACUATION;
use heap_words::{forwarded, forwardee};
use listing::{
    Kind, Piece, Reading, Row, Table, base, heap_word, json_field_lists, json_flag, json_key,
    json_number, json_object_at, json_place_of, json_reference, json_regions, json_text,
    json_value, piece_at, region_of_buffer, shared_region, top, used,
};
use regions::is_in;
use shen_base::{Block, Sink};

// Puts members for the object from one address to another.
fn json_object(row: &mut Row, table: &Table, at: u64, next: u64) {
    json_object_at(row, table, at);
    json_number(row, b"words", next.saturating_sub(at));
    json_flag(row, b"black", is_black(table, at));
    json_flag(row, b"grey", is_grey(table, at));
    let header = heap_word(table, at);
    if forwarded(header) {
        json_key(row, b"copy");
        row.put(b"{");
        json_place_of(row, table, forwardee(header));
        row.put(b"}");
    }
}

// Writes the elements for the objects of a region.
fn json_objects<K: Sink>(
    row: &mut Row,
    block: &mut Block,
    sink: &mut K,
    table: &Table,
    region: usize,
) {
    let (mut at, end) = used(table, region);
    for _ in 0..1024 {
        let Some(piece) = piece_at(table, at, end) else {
            return;
        };
        if piece.is_object() {
            json_key_of_element(row);
            row.put(b"{");
            json_object(row, table, at, piece.next);
            row.pass(block, sink);
            json_field_lists(row, table, at);
            row.put(b"}");
            row.pass(block, sink);
        }
        at = piece.next;
    }
}

// The name of a kind of piece that is no object, and the machine whose it is, if it is one's.
fn kind_of(kind: Kind) -> (&'static [u8], Option<usize>) {
    match kind {
        Kind::Object => (b"object", None),
        Kind::Filler => (b"filler", None),
        Kind::Free(seat) => (b"free", Some(seat)),
        Kind::Carved(seat) => (b"carved", Some(seat)),
        Kind::Hand(seat) => (b"in hand", Some(seat)),
    }
}

// Puts a piece that is no object as an element.
fn json_piece(row: &mut Row, table: &Table, piece: Piece) {
    let (kind, seat) = kind_of(piece.kind);
    json_key_of_element(row);
    row.put(b"{");
    json_text(row, b"kind", kind);
    if let Some(seat) = seat {
        json_number(row, b"machine", (seat as u64).saturating_add(1));
    }
    json_place_of(row, table, piece.at);
    json_number(row, b"words", piece.words());
    row.put(b"}");
}

// Writes the elements for what is no object in a region.
fn json_pieces<K: Sink>(
    row: &mut Row,
    block: &mut Block,
    sink: &mut K,
    table: &Table,
    region: usize,
) {
    let (mut at, end) = used(table, region);
    for _ in 0..1024 {
        let Some(piece) = piece_at(table, at, end) else {
            return;
        };
        if !piece.is_object() {
            json_piece(row, table, piece);
            row.pass(block, sink);
        }
        at = piece.next;
    }
}

// Puts the comma before an element of a list but the first.
fn json_key_of_element(row: &mut Row) {
    if row.last() != b'[' {
        row.put(b",");
    }
}

// Puts the members that say whether a region is the shared one, and which machines have their buffers in it.
fn json_owners(row: &mut Row, table: &Table, region: usize) {
    json_flag(row, b"shared", shared_region(table) == Some(region));
    json_key(row, b"machines");
    row.put(b"[");
    for seat in 0..table.config().seats() {
        if region_of_buffer(table, seat) == Some(region) {
            json_key_of_element(row);
            row.put_number((seat as u64).saturating_add(1));
        }
    }
    row.put(b"]");
}

// Writes a region as an object.
fn json_region<K: Sink>(
    row: &mut Row,
    block: &mut Block,
    sink: &mut K,
    table: &Table,
    region: usize,
) {
    let config = table.config();
    json_key_of_element(row);
    row.put(b"{");
    json_number(row, b"region", region as u64);
    json_flag(
        row,
        b"free",
        region < 64 && is_in(table.word(config.free_at()), region),
    );
    json_number(row, b"top", top(table, region));
    if region < config.regions() {
        let start = table.word(config.tams_at(region));
        json_number(row, b"mark_start", start);
        json_number(row, b"limit", table.word(config.limit_at(region)));
        if phase(table) >= EVACUATION {
            let (live, garbage) = live_and_garbage(table, region, start);
            json_number(row, b"live", live);
            json_number(row, b"garbage", garbage);
        }
    }
    json_owners(row, table, region);
    json_key(row, b"objects");
    row.put(b"[");
    json_objects(row, block, sink, table, region);
    row.put(b"]");
    json_key(row, b"others");
    row.put(b"[");
    json_pieces(row, block, sink, table, region);
    row.put(b"]}");
}

// Writes the roots of a thread, counted from 0, as a list.
fn json_roots(row: &mut Row, table: &Table, mutator: usize) {
    let config = table.config();
    json_key_of_element(row);
    row.put(b"[");
    for index in 0..16 {
        json_key_of_element(row);
        if mutator < config.mutators() {
            json_reference(row, table, table.word(config.root_at(mutator, index)));
        }
    }
    row.put(b"]");
}

// Writes the pin slots of a thread, counted from 0, as a list.
fn json_pins(row: &mut Row, table: &Table, mutator: usize) {
    json_key_of_element(row);
    row.put(b"[");
    for slot in 0..SLOTS {
        json_key_of_element(row);
        json_reference(row, table, pin_word(table, mutator, slot));
    }
    row.put(b"]");
}

// Writes the member that is the list of all threads' pin slots, where one of them holds an object.
fn json_all_pins<K: Sink>(row: &mut Row, block: &mut Block, sink: &mut K, table: &Table) {
    let config = table.config();
    if !has_pins(table) {
        return;
    }
    json_key(row, b"pins");
    row.put(b"[");
    for mutator in 0..config.mutators() {
        json_pins(row, table, mutator);
        row.pass(block, sink);
    }
    row.put(b"]");
}

/// Writes the heap after so many events as an object.
pub fn json_heap<K: Sink>(
    row: &mut Row,
    block: &mut Block,
    sink: &mut K,
    table: &Table,
    events: u64,
) {
    let config = table.config();
    row.put(b"{");
    json_text(row, b"kind", b"heap");
    json_number(row, b"event", events);
    json_number(row, b"phase", phase(table));
    json_regions(row, config, b"set", table.word(config.cset_at()));
    json_number(row, b"claimed", table.word(config.claim_at()));
    json_value(
        row,
        table,
        b"copiers",
        Reading::Copiers,
        table.word(config.evac_at()),
    );
    json_value(
        row,
        table,
        b"asked",
        Reading::Ask,
        table.word(config.ask_at()),
    );
    json_key(row, b"regions");
    row.put(b"[");
    for region in 0..config.regions() {
        json_region(row, block, sink, table, region);
    }
    row.put(b"]");
    json_key(row, b"roots");
    row.put(b"[");
    for mutator in 0..config.mutators() {
        json_roots(row, table, mutator);
        row.pass(block, sink);
    }
    row.put(b"]");
    json_all_pins(row, block, sink, table);
    row.put(b"}");
    row.send(block, sink);
}
