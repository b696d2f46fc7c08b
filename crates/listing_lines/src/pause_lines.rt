//! The line of a pause, and the words that it has changed.

use crate::PauseForm;
use crate::columns::{ACCESS, FOUND, PLACE};
use crate::course::Listing;
use crate::pen::Pen;
use heap_words::Access;
use listing::{
    Event, Pauses, Row, Table, json_access, json_key, json_number, json_pause, json_text,
    json_value, look_within, put_access, put_pause, put_value,
};
use shen_base::Sink;
use std::ops::Range;

// Puts the entries of the history that a pause has settled, by their numbers.
fn put_entries(row: &mut Row, entries: Range<u64>) {
    if !entries.is_empty() {
        row.put(b"; settles");
    }
    for entry in entries {
        row.put(b" entry ");
        row.put_number(entry);
    }
}

// Puts the member that is their list.
fn json_entries(row: &mut Row, entries: Range<u64>) {
    json_key(row, b"entries");
    row.put(b"[");
    for entry in entries {
        if row.last() != b'[' {
            row.put(b",");
        }
        row.put_number(entry);
    }
    row.put(b"]");
}

// The store of a word that a pause has changed.
fn store_of(table: &Table, at: usize) -> Access {
    Access::store(at, table.word(at))
}

// Sets the line of a word that a pause has changed.
fn set_changed(row: &mut Row, table: &Table, before: &Table, at: usize) {
    row.tab(PLACE);
    row.put(b"PS");
    row.tab(ACCESS);
    let kind = put_access(row, table, store_of(table, at), look_within(table, at));
    row.tab(FOUND);
    put_value(row, before, kind, before.word(at));
}

// Writes the object of a word that a pause has changed.
fn json_changed<K: Sink>(pen: &mut Pen, table: &Table, pauses: &Pauses, at: usize, sink: &mut K) {
    pen.row.put(b"{");
    json_text(&mut pen.row, b"kind", b"change");
    json_number(&mut pen.row, b"pause", pauses.number());
    let within = look_within(table, at);
    let kind = json_access(&mut pen.row, table, store_of(table, at), within);
    pen.pass(sink);
    let before = pauses.before();
    json_value(&mut pen.row, before, b"found", kind, before.word(at));
    pen.row.put(b"}");
    pen.send(sink);
}

impl Listing {
    // Writes the line of a pause, at its last event.
    fn pause_line<K: Sink>(&mut self, event: &Event, sink: &mut K) {
        let config = self.words.config();
        let told = self.pauses.told(&self.words.table);
        let entries = self.tally.entries_of(told.refused);
        if self.wanted.json {
            self.json_begun(b"pause", event);
            json_pause(&mut self.pen.row, config, &told);
            json_entries(&mut self.pen.row, entries);
            self.pen.row.put(b"}");
        } else {
            self.set_machine(event);
            put_pause(&mut self.pen.row, config, &told);
            put_entries(&mut self.pen.row, entries);
        }
        self.pen.send(sink);
    }

    // Writes a word that a pause has changed, if its line is listed.
    fn change<K: Sink>(&mut self, at: usize, sink: &mut K) {
        let table = &self.words.table;
        set_changed(&mut self.pen.row, table, self.pauses.before(), at);
        if !self.filter.has_line(&self.pen.row, ACCESS) {
            self.pen.row.clear();
        } else if self.wanted.json {
            self.pen.row.restart();
            json_changed(&mut self.pen, table, &self.pauses, at, sink);
        } else {
            self.pen.send(sink);
        }
    }

    // Writes the words that a pause has changed.
    fn changed<K: Sink>(&mut self, sink: &mut K) {
        let config = self.words.config();
        for at in config.image_start()..config.table_words() {
            if self.words.table.word(at) != self.pauses.before().word(at) {
                self.change(at, sink);
            }
        }
    }

    // Whether the line of a pause is listed: not where calls alone are, which are settled in its events.
    fn has_pause(&self, event: &Event) -> bool {
        !self.filter.calls
            && self.filter.has_seat(self.words.config(), event.seat)
            && self.filter.has_place(event.place)
    }

    // Shows that a pause has ended, as the line of the pause.
    pub(crate) fn show_pause<K: Sink>(&mut self, event: &Event, sink: &mut K) {
        if self.has_pause(event) {
            self.pause_line(event, sink);
        }
        if self.wanted.pauses == PauseForm::Changed {
            self.changed(sink);
        }
    }
}
