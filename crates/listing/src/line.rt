ghost use Rattle.std.specs.Prelude.{◌≡◌, ℕ, ◌<◌, ◌+◌};

use crate::event::Event;
use crate::row::Row;
use heap_words::Took;

// The most bytes of a line that may be in a run, and the most numbers.
const WIDTH: usize = 200;

const NUMBERS: usize = 16;

/// The column before which the number of an event ends.
pub const NUMBER: usize = 6;

/// The line of an event: its text behind the event's number, its shape, which is the text with 0 for each number and one space
/// for several, and its numbers.
#[derive(Clone, Copy)]
pub struct Line {
    event: Event,
    text: [u8; 200],
    used: usize,
    shape: [u8; 200],
    wide: usize,
    numbers: [u64; 16],
    count: usize,
    // The byte that was taken last.
    last: u8,
    // Whether there was room for all of it.
    is_whole: bool,
}

impl Line {
    /// The line of an event with this text.
    pub fn of(event: &Event, text: &[u8]) -> Line {
        let used = text.len().min(WIDTH);
        let mut line = Line {
            event: *event,
            text: [b' '; 200],
            used,
            shape: [b' '; 200],
            wide: 0,
            numbers: [0; 16],
            count: 0,
            last: b' ',
            is_whole: text.len() <= WIDTH,
        };
        line.text[..used].copy_from_slice(&text[..used]);
        for byte in &text[..used] {
            line.take(*byte);
        }
        line
    }

    // Puts a byte of the shape.
    fn put_shape(&mut self, byte: u8) {
        if self.wide < WIDTH {
            self.shape[self.wide] = byte;
            self.wide += 1;
        }
    }

    // Takes a digit, which begins a number where none is before it.
    fn take_digit(&mut self, digit: u64) {
        if !self.last.is_ascii_digit() {
            self.put_shape(b'0');
            self.is_whole = self.is_whole && self.count < NUMBERS;
            self.count = self.count.saturating_add(1).min(NUMBERS);
        }
        let slot = self.count.saturating_sub(1) % NUMBERS;
        self.numbers[slot] = self.numbers[slot].wrapping_mul(10).wrapping_add(digit);
    }

    // Takes a byte.
    fn take(&mut self, byte: u8) {
        if byte.is_ascii_digit() {
            self.take_digit(byte.saturating_sub(b'0') as u64);
        } else if byte != b' ' || self.last != b' ' {
            self.put_shape(byte);
        }
        self.last = byte;
    }

    // Its shape.
    fn shape(&self) -> &[u8] {
        &self.shape[..self.wide.min(WIDTH)]
    }

    /// Whether another line differs from it in numbers alone.
    pub fn is_like(&self, other: &Line) -> bool {
        self.is_whole
            && other.is_whole
            && self.event.seat == other.event.seat
            && self.event.place == other.event.place
            && self.shape() == other.shape()
    }

    /// Whether it has the same numbers as another line.
    pub fn has_numbers_of(&self, other: &Line) -> bool {
        self.numbers == other.numbers
    }

    /// Whether its numbers, and that of its event, go on from those of two lines before it, by the same steps.
    pub fn follows(&self, last: &Line, before: &Line) -> bool {
        for at in 0..NUMBERS {
            if !goes_on(self.numbers[at], last.numbers[at], before.numbers[at]) {
                return false;
            }
        }
        goes_on(self.event.number, last.event.number, before.event.number)
    }

    /// This line again, of an event behind it, if that differs in nothing but its number, which goes on from those of this line and one
    /// before it. Only of a machine that waits.
    pub fn again(&self, before: &Line, event: &Event) -> Option<Line> {
        let is_like = self.event.seat == event.seat && self.event.is_like(event);
        let goes = goes_on(event.number, self.event.number, before.event.number);
        if is_like && goes && event.said == Took::Again {
            Some(Line {
                event: *event,
                ..*self
            })
        } else {
            None
        }
    }

    /// Puts it into a row.
    pub fn put(&self, row: &mut Row) {
        row.put_number_to(self.event.number, NUMBER);
        row.put(&self.text[..self.used.min(WIDTH)]);
    }

    /// The colour of its machine.
    pub fn colour(&self) -> usize {
        self.event.seat
    }
}

// Whether a number goes on from two before it by the same step, where it does not pass the ends of 64 bits.
fn goes_on(next: u64, last: u64, before: u64) -> bool {
    next.wrapping_sub(last) == last.wrapping_sub(before)
}
