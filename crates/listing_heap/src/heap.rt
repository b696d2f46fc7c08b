//! The heap as the listing shows it: its phase and sets, a line a region, and the roots.

use heap_words::phase::{EVACUATION, IDLE, UPDATING};
use heap_words::{Config, forwarded, forwardee, refs_of};
use listing::{
    Kind, Piece, Reading, Row, Table, heap_word, name_at, piece_at, put_machine, put_name,
    put_place, put_reference, put_value, region_of_buffer, shared_region, top, used,
};
use regions::{is_in, mark_words};
use shen_base::{Block, Sink};
use shen_graph::Command;

// The columns of a line: what a region is, and how full it is.
const USED: usize = 13;

const BAR: usize = 26;

/// The number of pin slots of a thread.
pub const SLOTS: usize = Command::SLOTS as usize;

// How many characters a bar has.
const BAR_CHARACTERS: u64 = 16;

// Puts how full a region is.
fn put_bar(row: &mut Row, used: u64, words: u64) {
    row.put(b"[");
    for at in 0..BAR_CHARACTERS {
        let full = used.saturating_mul(BAR_CHARACTERS) > at.saturating_mul(words);
        row.put(if full { b"#" } else { b"." });
    }
    row.put(b"]");
}

// The column in front of what stands in a region, and that behind which an object begins a new line.
fn object_columns(bars: bool) -> (usize, usize) {
    if bars { (45, 110) } else { (25, 68) }
}

// Whether the bit of an address is set in the words of marks that end so many words before the heap.
fn is_marked(table: &Table, before: usize, address: u64) -> bool {
    let config = table.config();
    let bit = address.saturating_sub(config.region_words() as u64);
    let first = config.heap_start().saturating_sub(before);
    let word = table.word(first.saturating_add((bit.min(65536) / 64) as usize));
    word >> (bit % 64) & 1 == 1
}

/// Whether an address is black.
pub fn is_black(table: &Table, address: u64) -> bool {
    is_marked(table, mark_words(table.config()), address)
}

/// Whether an address is grey.
pub fn is_grey(table: &Table, address: u64) -> bool {
    is_marked(table, 2 * mark_words(table.config()), address)
}

/// The phase.
pub fn phase(table: &Table) -> u64 {
    table.word(table.config().phase_at())
}

// Puts an object: its name and its words, `*` where it is black and `'` where it is grey, and where its copy lies.
fn put_object(row: &mut Row, table: &Table, at: u64, words: u64) {
    let header = heap_word(table, at);
    if forwarded(header) {
        row.put(b"old ");
    }
    put_name(row, name_at(table, at));
    row.put(b"(");
    row.put_number(words);
    row.put(b")");
    if phase(table) != IDLE {
        if is_black(table, at) {
            row.put(b"*");
        } else if is_grey(table, at) {
            row.put(b"'");
        }
    }
    if forwarded(header) {
        row.put(b">");
        put_place(row, table, forwardee(header));
    }
}

// Puts room of a machine: what it is, and its words.
fn put_room(row: &mut Row, table: &Table, what: &[u8], words: u64, seat: usize) {
    row.put(what);
    row.put(b"(");
    row.put_number(words);
    row.put(b" of ");
    put_machine(row, table.config(), seat);
    row.put(b")");
}

// Puts a piece of a region.
fn put_piece(row: &mut Row, table: &Table, piece: Piece) {
    let words = piece.words();
    match piece.kind {
        Kind::Object => put_object(row, table, piece.at, words),
        Kind::Filler => {
            row.put(b"filler(");
            row.put_number(words);
            row.put(b")");
        }
        Kind::Free(seat) => put_room(row, table, b"free", words, seat),
        Kind::Carved(seat) => put_room(row, table, b"carved", words, seat),
        Kind::Hand(seat) => put_room(row, table, b"room", words, seat),
    }
}

// Puts the pieces of a region, each with its words.
fn put_pieces<K: Sink>(
    row: &mut Row,
    block: &mut Block,
    sink: &mut K,
    table: &Table,
    region: usize,
    bars: bool,
) {
    let (column, last) = object_columns(bars);
    let (mut at, end) = used(table, region);
    for _ in 0..1024 {
        let Some(piece) = piece_at(table, at, end) else {
            return;
        };
        if row.width() > last {
            row.send(block, sink);
            row.tab(column);
        }
        row.put(b" ");
        put_piece(row, table, piece);
        at = piece.next;
    }
}

/// The word of a pin slot of a thread, which is counted from 0: 0, or the address of the object that it holds.
pub fn pin_word(table: &Table, mutator: usize, slot: usize) -> u64 {
    let config = table.config();
    if mutator < config.mutators() && slot < SLOTS {
        table.word(config.pin_at(mutator, slot))
    } else {
        0
    }
}

// Whether some pin slot of a thread holds an object.
fn has_pin(table: &Table, mutator: usize) -> bool {
    for slot in 0..SLOTS {
        if pin_word(table, mutator, slot) > 0 {
            return true;
        }
    }
    false
}

/// Whether some pin slot of some thread holds an object.
pub fn has_pins(table: &Table) -> bool {
    for mutator in 0..table.config().mutators() {
        if has_pin(table, mutator) {
            return true;
        }
    }
    false
}

// Whether an object that a pin slot holds lies between two addresses.
fn has_pinned(table: &Table, first: u64, end: u64) -> bool {
    for mutator in 0..table.config().mutators() {
        for slot in 0..SLOTS {
            let address = pin_word(table, mutator, slot);
            if first <= address && address < end {
                return true;
            }
        }
    }
    false
}

// Puts whether a region is the shared one or pinned, and whose buffers lie in it.
fn put_owners(row: &mut Row, table: &Table, config: Config, region: usize) {
    let (first, end) = used(table, region);
    if has_pinned(table, first, end) {
        row.put(b" pinned:");
    }
    if shared_region(table) == Some(region) {
        row.put(b" shared:");
    }
    for seat in 0..config.seats() {
        if region_of_buffer(table, seat) == Some(region) {
            row.put(b" ");
            put_machine(row, config, seat);
            row.put(b":");
        }
    }
}

/// The words of a region's objects that are black, or were made since marking began, and those of all others and of words that only
/// fill; `start` is how far it was used then.
pub fn live_and_garbage(table: &Table, region: usize, start: u64) -> (u64, u64) {
    let (first, end) = used(table, region);
    let mut at = first;
    let mut live: u64 = 0;
    let mut garbage: u64 = 0;
    for _ in 0..1024 {
        let Some(piece) = piece_at(table, at, end) else {
            return (live, garbage);
        };
        let is_young = at.saturating_sub(first) >= start;
        if piece.is_object() && (is_young || is_black(table, at)) {
            live = live.saturating_add(piece.words());
        } else if piece.is_object() || piece.kind == Kind::Filler {
            garbage = garbage.saturating_add(piece.words());
        }
        at = piece.next;
    }
    (live, garbage)
}

// Puts what a cycle knows of a region: whether it is in the set, how far it was used when marking began, what of it lives, and
// how far it was used when updating began.
fn put_cycle(row: &mut Row, table: &Table, config: Config, region: usize) {
    let phase = phase(table);
    if phase == IDLE || region >= config.regions() {
        return;
    }
    let start = table.word(config.tams_at(region));
    if is_in(table.word(config.cset_at()), region) {
        row.put(b" in the set,");
    }
    row.put(b" mark start ");
    row.put_number(start);
    if phase >= EVACUATION {
        let (live, garbage) = live_and_garbage(table, region, start);
        row.put(b", live ");
        row.put_number(live);
        row.put(b", garbage ");
        row.put_number(garbage);
    }
    if phase >= UPDATING {
        row.put(b", limit ");
        row.put_number(table.word(config.limit_at(region)));
    }
    row.put(b":");
}

/// Puts the line of a region.
pub fn put_region<K: Sink>(
    row: &mut Row,
    block: &mut Block,
    sink: &mut K,
    table: &Table,
    region: usize,
    bars: bool,
) {
    let config = table.config();
    row.put(b"   region ");
    row.put_number(region as u64);
    row.tab(USED);
    if region < 64 && is_in(table.word(config.free_at()), region) {
        row.put(b"free");
    } else {
        row.put_number(top(table, region));
        row.put(b" of ");
        row.put_number(config.region_words() as u64);
        if bars {
            row.tab(BAR);
            put_bar(row, top(table, region), config.region_words() as u64);
        }
        let (column, _) = object_columns(bars);
        row.tab(column);
        put_owners(row, table, config, region);
        put_cycle(row, table, config, region);
        put_pieces(row, block, sink, table, region, bars);
    }
    row.send(block, sink);
}

/// Puts the line of the roots of a thread, counted from 0.
pub fn put_roots<K: Sink>(
    row: &mut Row,
    block: &mut Block,
    sink: &mut K,
    table: &Table,
    mutator: usize,
) {
    let config = table.config();
    row.put(b"   roots of ");
    put_machine(row, config, mutator);
    row.put(b":");
    for index in 0..16 {
        row.put(b" ");
        if mutator < config.mutators() {
            put_reference(row, table, table.word(config.root_at(mutator, index)));
        }
    }
    row.send(block, sink);
}

/// Puts the line of the pin slots of a thread, counted from 0, where one holds an object or is to be shown.
pub fn put_pins<K: Sink>(
    row: &mut Row,
    block: &mut Block,
    sink: &mut K,
    table: &Table,
    mutator: usize,
    shown: bool,
) {
    if !shown && !has_pin(table, mutator) {
        return;
    }
    row.put(b"   pins of ");
    put_machine(row, table.config(), mutator);
    row.put(b":");
    for slot in 0..SLOTS {
        row.put(b" ");
        put_reference(row, table, pin_word(table, mutator, slot));
    }
    row.send(block, sink);
}

// Puts a word of the heap's state behind a text.
fn put_state(row: &mut Row, table: &Table, text: &[u8], kind: Reading, at: usize) {
    row.put(text);
    put_value(row, table, kind, table.word(at));
}

/// Puts the line of the phase and the sets, while a cycle runs.
pub fn put_phase<K: Sink>(row: &mut Row, block: &mut Block, sink: &mut K, table: &Table) {
    let config = table.config();
    row.put(b"   phase ");
    row.put_number(phase(table));
    put_state(
        row,
        table,
        b"; collection set ",
        Reading::Regions,
        config.cset_at(),
    );
    put_state(
        row,
        table,
        b"; claimed work ",
        Reading::Number,
        config.claim_at(),
    );
    put_state(
        row,
        table,
        b"; copiers ",
        Reading::Copiers,
        config.evac_at(),
    );
    put_state(row, table, b"; asked for ", Reading::Ask, config.ask_at());
    row.send(block, sink);
}

// Whether a field of the object at an address names an object.
fn has_field(table: &Table, at: u64) -> bool {
    for index in 0..refs_of(heap_word(table, at.saturating_add(1))).min(16) {
        if heap_word(table, at.saturating_add(3).saturating_add(index)) > 0 {
            return true;
        }
    }
    false
}

/// Puts the line of the fields of the object at an address that name objects, if it has any.
pub fn put_fields<K: Sink>(row: &mut Row, block: &mut Block, sink: &mut K, table: &Table, at: u64) {
    if !has_field(table, at) {
        return;
    }
    row.put(b"   fields of ");
    put_reference(row, table, at);
    row.put(b":");
    for index in 0..refs_of(heap_word(table, at.saturating_add(1))).min(16) {
        let field = heap_word(table, at.saturating_add(3).saturating_add(index));
        if field > 0 {
            row.put(b" ");
            row.put_number(index);
            row.put(b" to ");
            put_reference(row, table, field);
        }
    }
    row.send(block, sink);
}

// Puts the lines of the fields of the objects of a region.
fn put_all_fields<K: Sink>(
    row: &mut Row,
    block: &mut Block,
    sink: &mut K,
    table: &Table,
    region: usize,
) {
    let (mut at, end) = used(table, region);
    for _ in 0..1024 {
        let Some(piece) = piece_at(table, at, end) else {
            return;
        };
        if piece.is_object() {
            put_fields(row, block, sink, table, at);
        }
        at = piece.next;
    }
}

/// Puts the heap, with bars or without.
pub fn put_heap<K: Sink>(
    row: &mut Row,
    block: &mut Block,
    sink: &mut K,
    table: &Table,
    bars: bool,
) {
    let config = table.config();
    if phase(table) != IDLE {
        put_phase(row, block, sink, table);
    }
    for region in 0..config.regions() {
        put_region(row, block, sink, table, region, bars);
    }
    for region in 0..config.regions() {
        put_all_fields(row, block, sink, table, region);
    }
    for mutator in 0..config.mutators() {
        put_roots(row, block, sink, table, mutator);
        put_pins(row, block, sink, table, mutator, false);
    }
}
