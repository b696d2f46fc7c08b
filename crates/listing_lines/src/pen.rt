//! What writes the lines: the one that is set, and those that wait to be sent.

use listing::Row;
use shen_base::{Block, Sink, WriteFault};
use std::mem;

// So many lines are sent on at once.
const LINES: u64 = 256;

// Writes lines into a sink.
#[derive(Drop)]
pub(crate) struct Pen {
    // The line that is set.
    pub(crate) row: Row,
    // The lines before it that are not sent on yet.
    pub(crate) block: Block,
    // The lines of machines so far.
    sent: u64,
    // Whether a line was not written.
    has_failed: bool,
}

impl Pen {
    // Nothing is written yet.
    pub(crate) fn new() -> Pen {
        Pen {
            row: Row::new(),
            block: Block::new(),
            sent: 0,
            has_failed: false,
        }
    }

    // Whether a line was not written.
    pub(crate) fn has_failed(&self) -> bool {
        self.has_failed
    }

    // Sends the line that is set.
    pub(crate) fn send<K: Sink>(&mut self, sink: &mut K) {
        self.row.send(&mut self.block, sink);
    }

    // Sends the line that is set, of a machine, in its colour where colours are wanted; and from time to time all lines on to where they go,
    // so that it is known whether they get there.
    pub(crate) fn send_of<K: Sink>(&mut self, seat: usize, colours: bool, sink: &mut K) {
        self.row.send_as(&mut self.block, sink, seat, colours);
        self.sent = self.sent.saturating_add(1);
        if self.sent % LINES == 0 {
            self.flush(sink);
        }
    }

    // Sends what is set of a line.
    pub(crate) fn pass<K: Sink>(&mut self, sink: &mut K) {
        self.row.pass(&mut self.block, sink);
    }

    // Sends all lines on to where they go.
    pub(crate) fn flush<K: Sink>(&mut self, sink: &mut K) {
        let block = mem::replace(&mut self.block, Block::new());
        if block.finish(sink).is_err() {
            self.has_failed = true;
        }
    }

    // Sends what is not sent yet, and tells whether all was written.
    pub(crate) fn finish<K: Sink>(self, sink: &mut K) -> Result<(), WriteFault> {
        let has_failed = self.has_failed;
        match self.block.finish(sink) {
            Ok(()) if !has_failed => Ok(()),
            _ => Err(WriteFault),
        }
    }
}
