//! The words of a heap as they stand behind the last event, and as they were shown last.

use crate::pen::Pen;
use heap_words::{Config, NoMemory};
use listing::Table;
use listing_heap::{Change, json_heap, put_heap};
use shen_base::Sink;
use shen_core::Plain;
use std::alloc::Global;

// The words of a heap.
#[derive(Drop)]
pub(crate) struct WordsNow {
    // Those behind the last event.
    pub(crate) table: Table,
    // Those when the heap was shown last, if it was.
    shown: Table,
    has_shown: bool,
}

// The words of a heap.
fn table_of(alloc: Global, plain: &Plain) -> Result<Table, NoMemory> {
    let mut table = Table::open(alloc, plain.config())?;
    for at in 0..plain.config().table_words() {
        table.put(at, plain.word(at));
    }
    Ok(table)
}

impl WordsNow {
    // The words of this heap.
    pub(crate) fn open(alloc: Global, plain: &Plain) -> Result<WordsNow, NoMemory> {
        let table = table_of(alloc, plain)?;
        let shown = table_of(alloc, plain)?;
        Ok(WordsNow {
            table,
            shown,
            has_shown: false,
        })
    }

    // The heap.
    pub(crate) fn config(&self) -> Config {
        self.table.config()
    }

    // Takes down that the heap was shown.
    fn note_shown(&mut self) {
        self.shown.copy(&self.table);
        self.has_shown = true;
    }

    // Writes the heap as text.
    pub(crate) fn put<K: Sink>(&mut self, pen: &mut Pen, bars: bool, sink: &mut K) {
        put_heap(&mut pen.row, &mut pen.block, sink, &self.table, bars);
        self.note_shown();
    }

    // Writes the heap after so many events as an object.
    pub(crate) fn put_json<K: Sink>(&mut self, pen: &mut Pen, events: u64, sink: &mut K) {
        json_heap(&mut pen.row, &mut pen.block, sink, &self.table, events);
        self.note_shown();
    }

    // Writes what of the heap is another line than when it was shown; at first all.
    pub(crate) fn put_change<K: Sink>(&mut self, pen: &mut Pen, bars: bool, sink: &mut K) {
        if !self.has_shown {
            self.put(pen, bars, sink);
            return;
        }
        let change = Change {
            before: &self.shown,
            after: &self.table,
        };
        change.put(&mut pen.row, &mut pen.block, sink, bars);
        self.note_shown();
    }
}
