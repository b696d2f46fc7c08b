//! How far a listing is: the events that were made, the entries of the history that they have settled, and the parts that have begun.
ghost use Rattle.std.specs.Prelude.{◌≡◌, ◌≢◌, ◌+◌, ◌^◌, ◌<◌, None};

use crate::scout::item_at_work;
use heap_words::Item;
use shen_core::Walk;
use shen_graph::Entry;
use std::ops::Range;

// What is counted.
#[derive(Drop)]
pub(crate) struct Tally {
    // The events that were made.
    pub(crate) made: u64,
    // The entries of the history that they have settled, and the one that the last of them has, if it has.
    pub(crate) entries: u64,
    pub(crate) settled: Option<Entry>,
}

impl Tally {
    // Nothing was made.
    pub(crate) fn new() -> Tally {
        Tally {
            made: 0,
            entries: 0,
            settled: None,
        }
    }

    // The number of the next event.
    pub(crate) fn next(&self) -> u64 {
        self.made.saturating_add(1)
    }

    // Takes down the entry of the history that an event settles, if it settles one.
    pub(crate) fn note_entry(&mut self, entry: Option<Entry>)
        ensures settles { self.new.settled ≡ entry }
        ensures none { entry ≡ None → self.new.entries ≡ self.old.entries }
        ensures one { entry ≢ None → self.old.entries + 1 < 2 ^ 64 → self.new.entries ≡ self.old.entries + 1 }
    {
        self.settled = entry;
        if entry.is_some() {
            self.entries = self.entries.saturating_add(1);
        }
    }

    // The number of the entry that the last event has settled, counted from 0, as a history is judged by.
    pub(crate) fn entry_number(&self) -> u64
        ensures { 0 < self.now.entries → self.now.entries ≡ result + 1 }
    {
        self.entries.saturating_sub(1)
    }

    // The numbers of the entries of the history that a pause has settled, behind it: so many, and nothing else is settled in it.
    pub(crate) fn entries_of(&self, refused: u64) -> Range<u64> {
        self.entries.saturating_sub(refused)..self.entries
    }
}

// The parts of the schedule: which have begun, and which have a heading.
#[derive(Drop)]
pub(crate) struct Parts {
    // The items that have begun, and those whose headings were written or passed over.
    pub(crate) begun: usize,
    pub(crate) headed: usize,
    // Whether the heading of the rounds was written, and whether any was.
    pub(crate) in_rounds: bool,
    pub(crate) is_open: bool,
    // The item at work; None where it is the rounds.
    pub(crate) at_work: Option<Item>,
}

impl Parts {
    // No part has begun.
    pub(crate) fn new() -> Parts {
        Parts {
            begun: 0,
            headed: 0,
            in_rounds: false,
            is_open: false,
            at_work: None,
        }
    }

    // The number of the item at work, counted from 1, if one is.
    pub(crate) fn item(&self) -> Option<u64> {
        if self.at_work.is_some() {
            Some(self.begun as u64)
        } else {
            None
        }
    }

    // Whether an item is at work, if one is asked for that one, counted from 1.
    pub(crate) fn is_in(&self, item: Option<u64>) -> bool {
        match item {
            Some(_) => self.item() == item,
            None => true,
        }
    }

    // Takes down which items have begun. Whether that is another part than before.
    pub(crate) fn note(&mut self, walk: &Walk) -> bool {
        if self.begun == walk.begun() && self.at_work.is_some() == walk.is_at_item() {
            return false;
        }
        self.begun = walk.begun();
        self.at_work = item_at_work(walk);
        true
    }

    // Passes over the headings of the items before the one at work.
    pub(crate) fn pass_over(&mut self, walk: &Walk) {
        let at_work = if walk.is_at_item() { 1 } else { 0 };
        self.headed = walk.begun().saturating_sub(at_work);
    }
}
