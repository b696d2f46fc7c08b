//! How a listing ends.
ghost use Rattle.std.specs.Prelude.{◌≤◌, length};
ghost use Rattle.shen_core.specs.Progress.{CanRun};

use crate::columns::{NARROW_WRAP, WRAP};
use crate::course::Listing;
use crate::standing::{json_end, json_stuck, machine_of, put_end, put_stuck};
use heap_words::Item;
use listing::{Row, json_number, json_text};
use listing_heap::{json_graph, put_graph};
use shen_base::Sink;
use shen_core::Plain;
use shen_graph::{GraphText, Work};

// Puts that no event was listed that names a text.
fn put_none(row: &mut Row, text: &[u8]) {
    row.put(b"no event is listed that names ");
    row.put(text);
}

// Puts the object for that.
fn json_none(row: &mut Row) {
    row.put(b"{");
    json_text(row, b"kind", b"none");
    row.put(b"}");
}

// Puts that no event was made that has a number, behind which the heap was to be shown.
fn put_no_event(row: &mut Row, number: u64) {
    row.put(b"there is no event ");
    row.put_number(number);
    row.put(b", behind which the heap was to be shown");
}

// Puts the object for that.
fn json_no_event(row: &mut Row, number: u64) {
    row.put(b"{");
    json_text(row, b"kind", b"none");
    json_number(row, b"event", number);
    row.put(b"}");
}

impl Listing {
    // Writes that no event was listed that names what was looked for.
    fn tell_none<K: Sink>(&mut self, sink: &mut K) {
        if self.has_listed {
            return;
        }
        if let Some(name) = self.filter.name() {
            if self.wanted.json {
                json_none(&mut self.pen.row);
            } else {
                put_none(&mut self.pen.row, name.text());
            }
            self.pen.send(sink);
        }
    }

    // Writes that there is no event of the number behind which the heap was to be shown.
    fn tell_no_event<K: Sink>(&mut self, sink: &mut K) {
        let number = self.wanted.heap_at;
        if number <= self.tally.made {
            return;
        }
        if self.wanted.json {
            json_no_event(&mut self.pen.row, number);
        } else {
            put_no_event(&mut self.pen.row, number);
        }
        self.pen.send(sink);
    }

    // Writes what of all that was looked for is not there.
    fn tell_nothing<K: Sink>(&mut self, sink: &mut K) {
        self.tell_none(sink);
        self.tell_no_event(sink);
    }

    // Writes that the item at work cannot end, and why, and how all stands; what is made then is not listed.
    pub(crate) fn stop<K: Sink>(&mut self, plain: &Plain, work: &Work, sink: &mut K)
        requires { CanRun plain.now work.now }
    {
        self.close_runs(sink);
        self.is_stuck = true;
        if self.is_cut() {
            return;
        }
        if let Some(item) = self.parts.at_work {
            self.put_stuck(plain, item);
            self.pen.send(sink);
        }
        self.standing(plain, work, sink);
        self.pen.flush(sink);
    }

    // Puts that the item at work cannot end, and why.
    fn put_stuck(&mut self, plain: &Plain, item: Item) {
        let last = self.stall.last(machine_of(item));
        let control = self.stall.last(plain.seats() - 1);
        let number = self.parts.begun;
        if self.wanted.json {
            json_stuck(&mut self.pen.row, plain, number, item, last, control);
        } else {
            put_stuck(&mut self.pen.row, plain, number, item, last, control);
        }
    }

    // Writes where each machine stands, and the replies so far.
    fn standing<K: Sink>(&mut self, plain: &Plain, work: &Work, sink: &mut K)
        requires { CanRun plain.now work.now }
    {
        if self.wanted.json {
            let made = self.tally.made;
            json_end(
                &mut self.pen.row,
                &mut self.pen.block,
                sink,
                plain,
                work,
                made,
            );
        } else {
            let wide = if self.wanted.is_wide() {
                WRAP
            } else {
                NARROW_WRAP
            };
            put_end(
                &mut self.pen.row,
                &mut self.pen.block,
                sink,
                plain,
                work,
                wide,
            );
        }
    }

    /// Writes the heap at the end, if it is wanted, where each machine stands, the replies, and how many events there were where
    /// that is all; nothing where the listing ends before.
    pub fn end<K: Sink>(&mut self, plain: &Plain, work: &Work, finished: bool, sink: &mut K)
        requires { CanRun plain.now work.now }
    {
        self.close_runs(sink);
        self.tell_nothing(sink);
        if self.is_stuck || self.is_cut() {
            return;
        }
        if self.wanted.heap {
            self.heap(sink);
        }
        self.standing(plain, work, sink);
        if finished && !self.wanted.json {
            let row = &mut self.pen.row;
            row.put(b"all machines are idle after ");
            row.put_number(self.tally.made);
            row.put(b" events");
            self.pen.send(sink);
        }
    }

    /// Writes the graph with which a listing of a trace of a version ends, where it has listed the end.
    pub fn graph<K: Sink>(&mut self, version: u32, graph: &GraphText, sink: &mut K)
        requires { length graph.now.roots ≤ 8 }
    {
        if self.is_stuck || self.is_cut() {
            return;
        }
        if self.wanted.json {
            json_graph(&mut self.pen.row, &mut self.pen.block, sink, version, graph);
        } else {
            put_graph(&mut self.pen.row, &mut self.pen.block, sink, version, graph);
        }
    }
}
