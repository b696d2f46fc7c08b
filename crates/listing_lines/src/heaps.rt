//! The heap in a listing: as a whole, or what of it an event has changed.

use crate::course::Listing;
use shen_base::Sink;

impl Listing {
    // Writes the heap.
    pub(crate) fn heap<K: Sink>(&mut self, sink: &mut K) {
        if self.wanted.json {
            self.words.put_json(&mut self.pen, self.tally.made, sink);
        } else {
            self.words.put(&mut self.pen, self.wanted.is_wide(), sink);
        }
    }

    // Writes what of the heap an event has changed: at first all, and as an object always all.
    pub(crate) fn heap_changes<K: Sink>(&mut self, sink: &mut K) {
        self.close_runs(sink);
        if self.wanted.json {
            self.heap(sink);
            return;
        }
        self.words
            .put_change(&mut self.pen, self.wanted.is_wide(), sink);
    }
}
