//! The line of an event: text, an object, or one more of a run of like lines.

use crate::course::Listing;
use listing::Event;
use shen_base::Sink;
use shen_graph::{Command, Reply};

impl Listing {
    // Writes an event of a machine and a place that are listed, if its line is: as text, which is set first, or as an object, for which it
    // is set only where something is looked for in it.
    pub(crate) fn line<K: Sink>(
        &mut self,
        event: &Event,
        begun: Option<Command>,
        reply: Option<Reply>,
        sink: &mut K,
    ) {
        if !self.wanted.json || self.filter.has_needle() {
            self.set(event, begun, reply);
            if !self.is_listed() {
                self.pen.row.restart();
                return;
            }
        }
        self.has_listed = true;
        if self.wanted.json {
            self.pen.row.restart();
            self.json_event(event, begun, reply, sink);
        } else {
            self.give(event, sink);
        }
    }

    // Sends the line of an event, or takes it into a run.
    fn give<K: Sink>(&mut self, event: &Event, sink: &mut K) {
        if self.wanted.folds && self.is_folded(event, sink) {
            self.pen.row.restart();
        } else {
            self.pen.send_of(event.seat, self.wanted.colours, sink);
        }
    }

    // Takes the line of an event into the run, if it goes on with it or begins one.
    fn takes(&mut self, event: &Event) -> bool {
        self.folds
            .takes(event, self.pen.row.text_from(self.said.behind))
    }

    // Whether the line of an event is one of a run. A run that it does not go on with ends before it.
    fn is_folded<K: Sink>(&mut self, event: &Event, sink: &mut K) -> bool {
        if self.takes(event) {
            return true;
        }
        if self.folds.is_open() {
            self.close_run(sink);
            if self.takes(event) {
                return true;
            }
        }
        self.folds
            .begin(event, self.pen.row.text_from(self.said.behind));
        false
    }
}
