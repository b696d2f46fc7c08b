//! The headings of a listing: its columns, the items and the rounds.

use crate::columns::{ADDRESSES, COLUMNS, NARROW, column_of};
use crate::course::Listing;
use heap_words::{Config, Item};
use listing::{Row, json_key, json_number, json_text, put_item, put_machine};
use shen_base::Sink;
use shen_core::Walk;

// Sets the line that names the machines, each above its column.
fn put_machines(row: &mut Row, config: Config, width: u64) {
    row.put(b" event");
    let seats = config.seats();
    for seat in 0..seats {
        row.tab(column_of(seat, seats, width));
        put_machine(row, config, seat);
    }
    row.put(b"   ");
    row.put(ADDRESSES);
}

// Puts the heading of an item, counted from 1.
fn put_heading(row: &mut Row, number: u64, item: Item) {
    row.put(b"-- item ");
    row.put_number(number);
    row.put(b": ");
    put_item(row, item);
}

// Puts the object of an item that begins, counted from 1.
fn json_heading(row: &mut Row, number: u64, item: Item) {
    row.put(b"{");
    json_text(row, b"kind", b"item");
    json_number(row, b"item", number);
    json_key(row, b"text");
    row.put(b"\"");
    put_item(row, item);
    row.put(b"\"}");
}

impl Listing {
    /// Writes the line that names the columns.
    pub fn columns<K: Sink>(&mut self, sink: &mut K) {
        if self.wanted.json {
            return;
        }
        let row = &mut self.pen.row;
        if self.wanted.columns {
            put_machines(row, self.words.config(), self.wanted.width);
        } else if self.wanted.is_wide() {
            row.put(COLUMNS);
        } else {
            row.put(NARROW);
        }
        self.pen.send(sink);
    }

    // Begins a part: before its heading stands the heap as the part before has left it, if it is wanted.
    fn part<K: Sink>(&mut self, sink: &mut K) {
        if self.parts.is_open && self.wanted.heap {
            self.heap(sink);
        }
        self.parts.is_open = true;
    }

    // Writes the heading of an item, counted from 0.
    fn heading<K: Sink>(&mut self, number: usize, item: Item, sink: &mut K) {
        self.part(sink);
        let counted = (number as u64).saturating_add(1);
        if self.wanted.json {
            json_heading(&mut self.pen.row, counted, item);
        } else {
            put_heading(&mut self.pen.row, counted, item);
        }
        self.pen.send(sink);
    }

    // Whether the next event is listed, as far as its number and its item say.
    fn is_next_due(&self) -> bool {
        !self.is_stuck && self.is_due(self.tally.next())
    }

    // Writes the headings of the items that have begun and have none.
    fn new_headings<K: Sink>(&mut self, walk: &Walk, sink: &mut K) {
        for number in self.parts.headed..walk.begun() {
            if let Some(item) = walk.items().get(number) {
                self.heading(number, *item, sink);
            }
        }
        self.parts.headed = walk.begun();
    }

    /// Writes the headings of the items that have begun since the last event, at first only that of the item at work where the
    /// listing begins later.
    pub fn headings<K: Sink>(&mut self, walk: &Walk, sink: &mut K) {
        if self.parts.begun != walk.begun() {
            self.close_runs(sink);
        }
        if self.parts.note(walk) {
            self.stall.clear();
        }
        if !self.is_next_due() {
            return;
        }
        if !self.parts.is_open && self.wanted.begins_later() {
            self.parts.pass_over(walk);
        }
        self.new_headings(walk, sink);
    }

    /// Writes the heading of the rounds, where they have begun since the last event.
    pub fn rounds<K: Sink>(&mut self, walk: &Walk, sink: &mut K) {
        if walk.is_at_item() || self.parts.in_rounds || !self.is_next_due() {
            return;
        }
        self.close_runs(sink);
        self.part(sink);
        self.parts.in_rounds = true;
        self.pen.row.put(if self.wanted.json {
            b"{\"kind\":\"rounds\"}".as_slice()
        } else {
            b"-- rounds".as_slice()
        });
        self.pen.send(sink);
    }
}
