//! What each machine is at: whether it is in a call, and what room it has that is no object yet.

use crate::columns::MACHINES;
use heap_words::{Access, Place, Took, WordName, next_of};
use listing::{Event, Room, Table, Within, base, look_within};

// What is known of the machines.
#[derive(Drop)]
pub(crate) struct Hands {
    // Whether each is in a call.
    in_call: [bool; 12],
}

impl Hands {
    // No machine is in a call.
    pub(crate) fn new() -> Hands {
        Hands {
            in_call: [false; 12],
        }
    }

    // Where the word of an access lies, by the words behind the event.
    pub(crate) fn within(&self, table: &Table, event: &Event) -> Within {
        let room = table.room(event.seat).from;
        match event.place {
            Place::PS => Within::Elsewhere,
            Place::IW if room > 0 => Within::Room(room),
            Place::CP | Place::HI if room > 0 => Within::Copy(room),
            Place::TZ => Within::Filler(address_of(table, event)),
            _ => look_within(table, event.access.at()),
        }
    }

    // Takes down what room the machine has: it carves words by the exchange of a top, and has room in hand from the step that stores
    // its buffer on, to the last that stores a word of it, or until its copy is published or given back.
    pub(crate) fn note_room(table: &mut Table, event: &Event) {
        let room = match event.place {
            Place::TX => carved(table, event),
            Place::TS => in_hand(table, event),
            Place::HX if is_won(event) => Room::NONE,
            Place::TZ | Place::IW | Place::CL | Place::CP | Place::HI | Place::HX => {
                table.room(event.seat)
            }
            _ => Room::NONE,
        };
        table.put_room(event.seat, room);
    }

    // Whether the step begins a call.
    pub(crate) fn is_begin(&self, event: &Event) -> bool {
        event.place == Place::E1 && !self.in_call[event.seat % MACHINES]
    }

    // Takes down whether the machine is in a call.
    pub(crate) fn note_call(&mut self, event: &Event) {
        let slot = event.seat % MACHINES;
        if event.place == Place::E1 {
            self.in_call[slot] = true;
        } else if event.said == Took::Done {
            self.in_call[slot] = false;
        }
    }
}

// Whether an event is an exchange that was made.
fn is_won(event: &Event) -> bool {
    match event.access {
        Access::Exchange { expect, .. } => event.found == expect,
        _ => false,
    }
}

// The address of an event's word of the heap, or 0.
fn address_of(table: &Table, event: &Event) -> u64 {
    let config = table.config();
    if event.access.at() >= config.table_words() {
        return 0;
    }
    match config.name_of(event.access.at()) {
        WordName::Heap { address } => address,
        _ => 0,
    }
}

// The words that an event has carved out of a region, by the exchange of its top.
fn carved(table: &Table, event: &Event) -> Room {
    let config = table.config();
    if !is_won(event) || event.access.at() >= config.table_words() {
        return Room::NONE;
    }
    match config.name_of(event.access.at()) {
        WordName::Top { region } => {
            let first = base(table, region);
            Room {
                from: first.saturating_add(event.found),
                to: first.saturating_add(event.access.made(event.found)),
                is_carved: true,
            }
        }
        _ => Room::NONE,
    }
}

// The room that a machine has in hand from the store of its buffer on: what it has carved, or the free words of the buffer before, up to
// where the free words begin now.
fn in_hand(table: &Table, event: &Event) -> Room {
    let carved = table.room(event.seat);
    Room {
        from: if carved.to > 0 {
            carved.from
        } else {
            next_of(event.found)
        },
        to: next_of(event.access.made(event.found)),
        is_carved: false,
    }
}
