//! What of the heap is shown behind an event: the lines that say something else than before.

use crate::heap::{
    SLOTS, phase, pin_word, put_fields, put_heap, put_phase, put_pins, put_region, put_roots,
};
use heap_words::phase::IDLE;
use heap_words::refs_of;
use listing::{Row, Table, heap_word, piece_at, region_of_buffer, shared_region, top, used};
use regions::mark_words;
use shen_base::{Block, Sink};

/// The heap before and after an event.
#[derive(Clone, Copy)]
pub struct Change<'a> {
    /// The words when the heap was shown before.
    pub before: &'a Table,
    /// The words now.
    pub after: &'a Table,
}

impl Change<'_> {
    // Whether a word of the table is another one now.
    fn is_new(&self, at: usize) -> bool {
        self.before.word(at) != self.after.word(at)
    }

    // Whether a word of the heap is.
    fn is_new_at(&self, address: u64) -> bool {
        heap_word(self.before, address) != heap_word(self.after, address)
    }

    // Whether all is to be shown: the phase or the collection set is another one.
    fn is_whole(&self) -> bool {
        let config = self.after.config();
        self.is_new(config.phase_at()) || self.is_new(config.cset_at())
    }

    // Whether the line of the state says something else.
    fn has_state(&self) -> bool {
        let config = self.after.config();
        phase(self.after) != IDLE
            && (self.is_new(config.claim_at())
                || self.is_new(config.evac_at())
                || self.is_new(config.ask_at()))
    }

    // Whether some object is marked, or is not marked any more.
    fn has_marks(&self) -> bool {
        let config = self.after.config();
        let end = config.heap_start();
        for at in end.saturating_sub(2 * mark_words(config))..end {
            if self.is_new(at) {
                return true;
            }
        }
        false
    }

    // Whether a machine's buffer is another one, and lies in the region now or did before.
    fn has_buffer(&self, region: usize) -> bool {
        let config = self.after.config();
        for seat in 0..config.seats() {
            if self.is_new(config.cur_at(seat))
                && (region_of_buffer(self.before, seat) == Some(region)
                    || region_of_buffer(self.after, seat) == Some(region))
            {
                return true;
            }
        }
        false
    }

    // Whether the region is shared now and was not before, or the other way round.
    fn has_share(&self, region: usize) -> bool {
        (shared_region(self.before) == Some(region)) != (shared_region(self.after) == Some(region))
    }

    // Whether a piece of the region is another one, or an object has moved.
    fn has_piece(&self, region: usize) -> bool {
        let (mut at, end) = used(self.after, region);
        for _ in 0..1024 {
            let Some(piece) = piece_at(self.after, at, end) else {
                return false;
            };
            let is_same = match piece_at(self.before, at, end) {
                Some(before) => before.kind == piece.kind && before.next == piece.next,
                None => false,
            };
            if !is_same || piece.is_object() && self.has_object(at) {
                return true;
            }
            at = piece.next;
        }
        false
    }

    // Whether the object at an address is another one, or has moved.
    fn has_object(&self, at: u64) -> bool {
        self.is_new_at(at)
            || self.is_new_at(at.saturating_add(1))
            || self.is_new_at(at.saturating_add(2))
    }

    // Whether the line of a region says something else.
    fn has_region(&self, region: usize) -> bool {
        let config = self.after.config();
        if region >= config.regions() {
            return false;
        }
        let bit = self.before.word(config.free_at()) ^ self.after.word(config.free_at());
        self.is_new(config.top_at(region))
            || self.is_new(config.limit_at(region))
            || self.is_new(config.tams_at(region))
            || (region < 64 && bit >> (region % 64) & 1 == 1)
            || self.has_share(region)
            || self.has_buffer(region)
            || self.has_pinned(region)
            || self.has_piece(region)
    }

    // Whether a field of the object at an address is another one.
    fn has_field(&self, at: u64) -> bool {
        let refs = refs_of(heap_word(self.after, at.saturating_add(1))).min(16);
        for index in 0..refs {
            if self.is_new_at(at.saturating_add(3).saturating_add(index)) {
                return true;
            }
        }
        false
    }

    // Puts the lines of the fields of a region that say something else.
    fn put_fields<K: Sink>(&self, row: &mut Row, block: &mut Block, sink: &mut K, region: usize) {
        let (mut at, end) = used(self.after, region);
        for _ in 0..1024 {
            let Some(piece) = piece_at(self.after, at, end) else {
                return;
            };
            if piece.is_object() && self.has_field(at) {
                put_fields(row, block, sink, self.after, at);
            }
            at = piece.next;
        }
    }

    // Whether a root of a thread is another one.
    fn has_root(&self, mutator: usize) -> bool {
        let config = self.after.config();
        if mutator >= config.mutators() {
            return false;
        }
        for index in 0..16 {
            if self.is_new(config.root_at(mutator, index)) {
                return true;
            }
        }
        false
    }

    // Whether a pin slot of a thread is another one.
    fn has_pin(&self, mutator: usize) -> bool {
        for slot in 0..SLOTS {
            if pin_word(self.before, mutator, slot) != pin_word(self.after, mutator, slot) {
                return true;
            }
        }
        false
    }

    // Whether a pin slot has changed, before or behind which an object of a region is held.
    fn has_pinned(&self, region: usize) -> bool {
        let (first, end) = used(self.after, region);
        for mutator in 0..self.after.config().mutators() {
            for slot in 0..SLOTS {
                let before = pin_word(self.before, mutator, slot);
                let after = pin_word(self.after, mutator, slot);
                let address = before.max(after);
                if before != after && first <= address && address < end {
                    return true;
                }
            }
        }
        false
    }

    // Puts the lines of the regions that say something else; all where objects were marked.
    fn put_regions<K: Sink>(&self, row: &mut Row, block: &mut Block, sink: &mut K, bars: bool) {
        let marks = self.has_marks();
        for region in 0..self.after.config().regions() {
            if marks && top(self.after, region) > 0 || self.has_region(region) {
                put_region(row, block, sink, self.after, region, bars);
            }
        }
    }

    /// Puts the lines that say something else than before.
    pub fn put<K: Sink>(&self, row: &mut Row, block: &mut Block, sink: &mut K, bars: bool) {
        if self.is_whole() {
            put_heap(row, block, sink, self.after, bars);
            return;
        }
        if self.has_state() {
            put_phase(row, block, sink, self.after);
        }
        self.put_regions(row, block, sink, bars);
        for region in 0..self.after.config().regions() {
            self.put_fields(row, block, sink, region);
        }
        for mutator in 0..self.after.config().mutators() {
            if self.has_root(mutator) {
                put_roots(row, block, sink, self.after, mutator);
            }
            if self.has_pin(mutator) {
                put_pins(row, block, sink, self.after, mutator, true);
            }
        }
    }
}
