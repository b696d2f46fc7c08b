//! The line of an event as an object of JSON.

use crate::course::Listing;
use crate::standing::{json_command, json_reply, json_seat};
use crate::tally::Tally;
use heap_words::{Access, Config, Took};
use listing::{Event, Row, json_access, json_flag, json_number, json_text, json_value};
use shen_base::Sink;
use shen_graph::{Command, Entry, Reply};

// Puts the members for the entry of the history that a step settles, and its number there.
fn json_settled(row: &mut Row, entry: Entry, number: u64) {
    if entry.reply == Reply::Full {
        json_number(row, b"settles_full_of", entry.thread as u64);
    } else {
        json_reply(row, b"settles", entry.reply);
    }
    json_number(row, b"entry", number);
}

// Puts members for what the step of a machine says: the command that it begins, what it settles, and the reply of the call that has ended.
fn json_says(
    row: &mut Row,
    tally: &Tally,
    event: &Event,
    begun: Option<Command>,
    reply: Option<Reply>,
) {
    if let Access::Exchange { expect, .. } = event.access {
        json_flag(row, b"won", event.found == expect);
    }
    if let Some(command) = begun {
        json_command(row, b"begins", command);
    }
    if let Some(entry) = tally.settled {
        json_settled(row, entry, tally.entry_number());
    }
    if event.said == Took::Again {
        json_flag(row, b"again", true);
    }
    if let Some(reply) = reply {
        json_reply(row, b"replies", reply);
    }
}

// Puts members for the machine of an event of an item, if it is of one, and where the machine stood.
fn json_machine(row: &mut Row, config: Config, item: Option<u64>, event: &Event) {
    json_number(row, b"event", event.number);
    if let Some(item) = item {
        json_number(row, b"item", item);
    }
    json_seat(row, config, event.seat);
    json_text(row, b"at", &event.place.code());
}

impl Listing {
    // Begins the object of an event, with its machine, and where that stood.
    pub(crate) fn json_begun(&mut self, kind: &[u8], event: &Event) {
        let item = self.parts.item();
        let row = &mut self.pen.row;
        row.put(b"{");
        json_text(row, b"kind", kind);
        json_machine(row, self.words.config(), item, event);
    }

    // Writes an event as JSON. The command is the one that it begins, and the reply that of the call that has ended.
    pub(crate) fn json_event<K: Sink>(
        &mut self,
        event: &Event,
        begun: Option<Command>,
        reply: Option<Reply>,
        sink: &mut K,
    ) {
        let within = self.hands.within(&self.words.table, event);
        self.json_begun(b"event", event);
        let table = &self.words.table;
        let kind = json_access(&mut self.pen.row, table, event.access, within);
        self.pen.pass(sink);
        let row = &mut self.pen.row;
        json_value(row, table, b"found", kind, event.found);
        json_says(row, &self.tally, event, begun, reply);
        row.put(b"}");
        self.pen.send_of(event.seat, false, sink);
    }
}
