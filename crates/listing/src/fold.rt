//! Runs of like lines. A run is a group of lines that comes again and again, where each number goes up or down by the same step
//! each time: fields that are set to null, words that are copied, empty units, looks that wait. Of a run the first group is listed,
//! and the last, which says how many times it came.
ghost use Rattle.std.specs.Prelude.{◌≡◌, ◌+◌, ◌^◌, ◌<◌};

use crate::event::Event;
use crate::line::Line;
use crate::row::Row;
use heap_words::Took;
use shen_base::{Block, Sink};

// The most lines of a group.
const GROUP: usize = 12;

// How many lines are kept: two groups.
const KEPT: usize = 24;

/// What is known of the last lines, and the run that they are in.
#[derive(Drop)]
pub struct Folds {
    lines: [Option<Line>; 24],
    // Where the next line is kept, and how many lines there are that a run may begin from.
    next: usize,
    known: usize,
    // How many lines a group of the run has, 0 where there is no run.
    period: usize,
    // The lines of the run behind its first group.
    more: u64,
    // Whether these differ in nothing but the numbers of their events.
    is_flat: bool,
}

impl Folds {
    ghost use Rattle.listing.specs.Repeats.{more_of};

    /// No line, and no run.
    pub fn new() -> Folds {
        Folds {
            lines: [None; 24],
            next: 0,
            known: 0,
            period: 0,
            more: 0,
            is_flat: true,
        }
    }

    /// Whether a run is open.
    pub fn is_open(&self) -> bool {
        self.period > 0
    }

    // The line so many lines before the next one.
    fn back(&self, distance: usize) -> &Option<Line> {
        &self.lines[(self.next % KEPT + KEPT - distance.min(KEPT)) % KEPT]
    }

    // Keeps a line as the last.
    fn keep(&mut self, line: Line)
        ensures { more_of self.new ≡ more_of self.old }
    {
        self.lines[self.next % KEPT] = Some(line);
        self.next = (self.next % KEPT + 1) % KEPT;
        self.known = self.known.saturating_add(1).min(KEPT);
    }

    // Keeps a line as the last of the run.
    fn count(&mut self, line: Line)
        ensures { more_of self.old + 1 < 2 ^ 64 → more_of self.new ≡ more_of self.old + 1 }
    {
        self.keep(line);
        self.more = self.more.saturating_add(1);
    }

    // How many lines a group has if this line begins its second: as few as may be, 0 where it begins none.
    fn period_of(&self, line: &Line) -> usize {
        for period in 1..GROUP + 1 {
            if period <= self.known {
                if let Some(last) = self.back(period) {
                    if line.is_like(last) {
                        return period;
                    }
                }
            }
        }
        0
    }

    // Whether the line goes on with the run: it is like that of the group before, and behind the second group its numbers go on.
    fn goes_on(&self, line: &Line) -> bool {
        let Some(last) = self.back(self.period) else {
            return false;
        };
        if !line.is_like(last) || self.more < self.period as u64 {
            return line.is_like(last);
        }
        match self.back(self.period.saturating_mul(2)) {
            Some(before) => line.follows(last, before),
            None => false,
        }
    }

    // Whether the line differs from that of the group before in nothing but the number of its event.
    fn is_same(&self, line: &Line) -> bool {
        match self.back(self.period) {
            Some(last) => line.has_numbers_of(last),
            None => false,
        }
    }

    /// Takes the line of an event, by its text behind the number, into the run, if it goes on with it, or if no run is open and it
    /// begins one. Whether it has taken it.
    pub fn takes(&mut self, event: &Event, text: &[u8]) -> bool {
        let line = Line::of(event, text);
        if self.is_open() {
            if !self.goes_on(&line) {
                return false;
            }
        } else {
            self.period = self.period_of(&line);
            self.is_flat = true;
            if !self.is_open() {
                return false;
            }
        }
        self.is_flat = self.is_flat && self.is_same(&line);
        self.count(line);
        true
    }

    // The line of an event by which a machine waits, if it differs from that of the group before in nothing but the event's number.
    fn waits_on(&self, event: &Event) -> Option<Line> {
        let (Some(last), Some(before)) = (
            self.back(self.period),
            self.back(self.period.saturating_mul(2)),
        ) else {
            return None;
        };
        last.again(before, event)
    }

    /// Takes an event by which a machine waits into the run, if it goes on with it, without its text. Whether it has taken it.
    pub fn takes_wait(&mut self, event: &Event) -> bool {
        let is_due = self.is_open() && self.is_flat && self.more >= KEPT as u64;
        if !is_due || event.said != Took::Again {
            return false;
        }
        match self.waits_on(event) {
            Some(line) => {
                self.count(line);
                true
            }
            None => false,
        }
    }

    /// Takes down a line that is in no run.
    pub fn begin(&mut self, event: &Event, text: &[u8]) {
        self.keep(Line::of(event, text));
    }

    /// Forgets all lines: no run begins from them.
    pub fn forget(&mut self) {
        self.known = 0;
    }

    // How many of the last lines are listed at the end of the run, and how many times its group came again, where that is told.
    fn ending(&self) -> (usize, u64) {
        let period = self.period.max(1) as u64;
        let groups = self.more / period;
        if groups < 2 {
            (self.more.min(KEPT as u64) as usize, 0)
        } else {
            (
                (period + self.more % period).min(KEPT as u64) as usize,
                groups,
            )
        }
    }

    // Puts how many times the group came again.
    fn put_times(&self, row: &mut Row, times: u64, says: usize) {
        row.put_behind(says);
        if self.period > 1 {
            row.put_with(b"these ", self.period as u64);
            row.put(b" lines ");
        }
        row.put_number(times);
        row.put(b" times more");
    }

    /// Ends the run: lists the last group, which says behind a column how many times it came, and the lines behind it; or all lines that
    /// were taken, where they are fewer than two groups.
    pub fn close<K: Sink>(
        &mut self,
        row: &mut Row,
        block: &mut Block,
        sink: &mut K,
        says: usize,
        colours: bool,
    ) {
        let (shown, times) = self.ending();
        let rest = (self.more % self.period.max(1) as u64) as usize;
        for index in 0..KEPT {
            let distance = KEPT - index;
            if distance <= shown {
                if let Some(line) = self.back(distance) {
                    line.put(row);
                    if times > 0 && distance == rest.saturating_add(1) {
                        self.put_times(row, times, says);
                    }
                    row.send_as(block, sink, line.colour(), colours);
                }
            }
        }
        if times > 0 {
            self.known = shown;
        }
        self.period = 0;
        self.more = 0;
    }
}
