//! A listing on its way: which events it shows, and what it keeps of them.
ghost use Rattle.shen_core.specs.Progress.{CanRun};

use crate::columns::SAYS;
use crate::hands::Hands;
use crate::pen::Pen;
use crate::said::Said;
use crate::scout::{event_of, is_stalled};
use crate::tally::{Parts, Tally};
use crate::words_now::WordsNow;
use crate::{Asked, Filter, PauseForm, Wanted};
use heap_words::{NoMemory, Place, Took};
use listing::{Event, Folds, Pauses, Row, Stall};
use shen_base::{Sink, WriteFault, write_all};
use shen_core::{Plain, Seen};
use shen_graph::{Command, Reply, Work};
use std::alloc::Global;

// The events between two times at which they are told of.
const EVENTS: u64 = 1_000_000;

/// A listing on its way to a sink.
#[derive(Drop)]
pub struct Listing {
    pub(crate) wanted: Wanted,
    pub(crate) filter: Filter,
    pub(crate) tally: Tally,
    pub(crate) parts: Parts,
    // Whether the schedule was found not to go on, and whether an event was listed.
    pub(crate) is_stuck: bool,
    pub(crate) has_listed: bool,
    // What is known of the events so far.
    pub(crate) hands: Hands,
    pub(crate) words: WordsNow,
    pub(crate) pauses: Pauses,
    pub(crate) folds: Folds,
    pub(crate) stall: Stall,
    // The line that is set, and what writes it.
    pub(crate) said: Said,
    pub(crate) pen: Pen,
}

impl Listing {
    /// A listing of a heap before its first line.
    pub fn open(alloc: Global, asked: &Asked, plain: &Plain) -> Result<Listing, NoMemory> {
        let words = WordsNow::open(alloc, plain)?;
        let pauses = Pauses::open(alloc, plain.config())?;
        Ok(Listing {
            wanted: asked.wanted,
            filter: asked.filter,
            tally: Tally::new(),
            parts: Parts::new(),
            is_stuck: false,
            has_listed: false,
            hands: Hands::new(),
            words,
            pauses,
            folds: Folds::new(),
            stall: Stall::new(),
            said: Said::new(asked.wanted.in_columns()),
            pen: Pen::new(),
        })
    }

    // Whether the event of a number is in the part of the listing that is wanted.
    pub(crate) fn is_due(&self, number: u64) -> bool {
        number >= self.wanted.from && number <= self.wanted.to && self.parts.is_in(self.wanted.item)
    }

    // Ends the run of lines that is open.
    pub(crate) fn close_run<K: Sink>(&mut self, sink: &mut K) {
        let says = if self.said.in_columns { SAYS } else { 0 };
        let mut row = Row::new();
        self.folds.close(
            &mut row,
            &mut self.pen.block,
            sink,
            says,
            self.wanted.colours,
        );
    }

    // Ends the run of lines, and none goes on over what comes next.
    pub(crate) fn close_runs<K: Sink>(&mut self, sink: &mut K) {
        if self.folds.is_open() {
            self.close_run(sink);
        }
        self.folds.forget();
    }

    // Whether an event has a line of its own. Of a pause that is one line, what calls say is listed where that alone is wanted.
    fn is_shown(&self, event: &Event) -> bool {
        self.wanted.pauses == PauseForm::Full
            || self.filter.calls && self.tally.settled.is_some()
            || !matches!(event.place, Place::PL | Place::PS | Place::P3)
    }

    // Takes down what an event has done.
    fn note(&mut self, event: &Event) {
        self.words.table.take(event.access, event.found);
        if event.seat.saturating_add(1) == self.words.config().seats() {
            self.pauses.note(&self.words.table, event);
        }
        // (in the rounds each machine has its turn, so none waits for ever)
        if self.parts.at_work.is_some() {
            self.stall.note(event);
        }
    }

    // Whether an event is shown, as far as its machine and its place say.
    fn is_seen(&self, event: &Event) -> bool {
        self.is_due(event.number)
            && self.is_shown(event)
            && self.filter.has_seat(self.words.config(), event.seat)
            && self.filter.has_place(event.place)
    }

    // Whether the words after an event are to be shown, as far as it has changed them.
    fn is_change(&self, event: &Event, is_seen: bool) -> bool {
        let is_of_image = matches!(event.place, Place::PL | Place::PS);
        let is_full = self.wanted.pauses == PauseForm::Full;
        self.wanted.heap_changes
            && self.is_due(event.number)
            && (is_full && is_seen || !is_of_image)
            && (event.changes() || event.place == Place::P3)
    }

    // Whether a machine waits on with the event in the run that is open, which has taken it then.
    fn is_wait(&mut self, event: &Event) -> bool {
        self.wanted.folds && !self.wanted.json && self.folds.takes_wait(event)
    }

    // Shows that a pause has ended, if that is wanted.
    fn end_pause<K: Sink>(&mut self, event: &Event, sink: &mut K) {
        self.close_runs(sink);
        if self.is_due(event.number) {
            self.show_pause(event, sink);
        }
    }

    // Takes an event that was made, and shows it, if it is wanted.
    fn take<K: Sink>(
        &mut self,
        event: &Event,
        begun: Option<Command>,
        reply: Option<Reply>,
        sink: &mut K,
    ) {
        let is_seen = self.is_seen(event);
        let is_folded = is_seen && self.is_wait(event);
        self.note(event);
        if is_seen && !is_folded {
            self.line(event, begun, reply, sink);
        }
        if event.place == Place::P3 {
            self.end_pause(event, sink);
        }
        Hands::note_room(&mut self.words.table, event);
        self.hands.note_call(event);
        if self.is_change(event, is_seen) {
            self.heap_changes(sink);
        }
    }

    /// Takes an event that was made: writes its line, if it is wanted, and the heap behind it, if that is.
    pub fn event<K: Sink>(&mut self, plain: &Plain, work: &Work, seen: &Seen, sink: &mut K)
        requires { CanRun plain.now work.now }
    {
        self.tally.made = self.tally.next();
        if self.is_stuck || self.pen.has_failed() {
            return;
        }
        self.tally.note_entry(seen.settles);
        let event = event_of(plain, self.tally.made, seen);
        let begun = if self.hands.is_begin(&event) {
            call_of(plain, work, event.seat)
        } else {
            None
        };
        let reply = reply_of(plain, work, &event);
        self.take(&event, begun, reply, sink);
        if self.wanted.heap_at == self.tally.made {
            self.close_runs(sink);
            self.heap(sink);
        }
        if is_stalled(&self.stall, plain, self.parts.at_work) {
            self.stop(plain, work, sink);
        }
    }

    // Whether the listing ends before the last event.
    pub(crate) fn is_cut(&self) -> bool {
        self.tally.made > self.wanted.to
    }

    /// Tells how many events were made, from time to time, if that is wanted.
    pub fn progress<E: Sink>(&mut self, errors: &mut E) {
        if !self.wanted.progress || self.tally.made % EVENTS > 0 {
            return;
        }
        let mut row = Row::new();
        row.put(b"\rshensteps: ");
        row.put_number(self.tally.made / EVENTS);
        row.put(b" million events");
        let _ = write_all(errors, row.text());
    }

    /// Ends the line of what was told on the way.
    pub fn end_progress<E: Sink>(&self, errors: &mut E) {
        if self.wanted.progress && self.tally.made >= EVENTS {
            let _ = write_all(errors, b"\n");
        }
    }

    /// Sends what is not sent yet, and tells whether all was written.
    pub fn finish<K: Sink>(self, sink: &mut K) -> Result<(), WriteFault> {
        self.pen.finish(sink)
    }
}

// The command of the machine's call, or the one after it.
fn call_of(plain: &Plain, work: &Work, seat: usize) -> Option<Command>
    requires { CanRun plain.now work.now }
{
    if seat < plain.config().mutators() {
        work.next(seat)
    } else {
        None
    }
}

// The reply of the call that an event has ended.
fn reply_of(plain: &Plain, work: &Work, event: &Event) -> Option<Reply>
    requires { CanRun plain.now work.now }
{
    if event.said == Took::Done && event.seat < plain.config().mutators() {
        work.replies(event.seat).list().last().copied()
    } else {
        None
    }
}
