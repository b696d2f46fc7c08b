ghost use Rattle.std.specs.Prelude.{◌≤◌};

use shen_base::{Block, Sink};

// The bytes that a row has room for.
const ROOM: usize = 4096;

// The colours of machines, by turns.
const COLOURS: usize = 6;

/// One line of a listing while it is set, in columns. What does not fit is left out, so a long line is sent in parts.
#[derive(Drop)]
pub struct Row {
    // spaces behind those that are used
    bytes: [u8; 4096],
    used: usize,
    // where the last text ends, without the spaces behind it
    end: usize,
    // the byte that was put last, also where it is sent
    last: u8,
}

// The most digits of a number.
const DIGITS: usize = 20;

// Spells a number in decimal at the end, and says where it begins there.
fn spell(number: u64, digits: &mut [u8; 20]) -> usize {
    let mut left = number;
    for place in 0..20 {
        let at = 19 - place;
        digits[at] = b'0' + (left % 10) as u8;
        left /= 10;
        if left == 0 {
            return at;
        }
    }
    0
}

impl Row {
    /// An empty row.
    pub fn new() -> Row {
        Row {
            bytes: [b' '; 4096],
            used: 0,
            end: 0,
            last: b' ',
        }
    }

    /// How many bytes it has.
    pub fn width(&self) -> usize {
        self.used
    }

    /// The byte that was put last.
    pub fn last(&self) -> u8 {
        self.last
    }

    /// Its text, without the spaces at the end.
    pub fn text(&self) -> &[u8] {
        &self.bytes[..self.end.min(ROOM)]
    }

    /// Its text from a column on, without the spaces at the end.
    pub fn text_from(&self, column: usize) -> &[u8] {
        let end = self.end.min(ROOM);
        &self.bytes[column.min(end)..end]
    }

    // Puts a byte behind what is there.
    fn put_byte(&mut self, byte: u8) {
        if self.used < ROOM {
            self.bytes[self.used] = byte;
            self.used += 1;
            self.last = byte;
            if byte != b' ' {
                self.end = self.used;
            }
        }
    }

    /// Puts text behind what is there.
    pub fn put(&mut self, text: &[u8]) {
        for byte in text {
            self.put_byte(*byte);
        }
    }

    /// Goes on at a column, or behind a comma where text ends beyond it; at column 0 behind a semicolon.
    pub fn put_behind(&mut self, column: usize) {
        if column == 0 {
            self.put(b"; ");
        } else if self.used < column {
            self.pad(column);
        } else {
            self.put(b", ");
        }
    }

    /// Puts a number in decimal.
    pub fn put_number(&mut self, number: u64) {
        if number < 10 {
            self.put_byte(b'0' + number as u8);
            return;
        }
        let mut digits = [b'0'; 20];
        let from = spell(number, &mut digits);
        self.put(&digits[from.min(DIGITS)..]);
    }

    /// Puts text, and a number in decimal right behind it.
    pub fn put_with(&mut self, text: &[u8], number: u64) {
        self.put(text);
        self.put_number(number);
    }

    /// Puts a number so that it ends before this column.
    pub fn put_number_to(&mut self, number: u64, column: usize) {
        let mut digits = [b'0'; 20];
        let from = spell(number, &mut digits);
        self.pad(column.saturating_sub(DIGITS.saturating_sub(from)));
        self.put(&digits[from.min(DIGITS)..]);
    }

    /// Puts a number of things, as `1 object` and `2 objects`.
    pub fn put_count(&mut self, number: u64, thing: &[u8]) {
        self.put_number(number);
        self.put(b" ");
        self.put(thing);
        if number != 1 {
            self.put(b"s");
        }
    }

    // Puts spaces up to a column.
    fn pad(&mut self, column: usize) {
        self.used = self.used.max(column.min(ROOM));
    }

    /// Goes on at a column, or one space on where the row is beyond it.
    pub fn tab(&mut self, column: usize) {
        self.put_byte(b' ');
        self.pad(column);
    }

    /// Is empty then.
    pub fn clear(&mut self) {
        for at in 0..self.used.min(ROOM) {
            self.bytes[at] = b' ';
        }
        self.used = 0;
        self.end = 0;
    }

    /// Is empty then, as before the first byte of a line.
    pub fn restart(&mut self) {
        self.clear();
        self.last = b' ';
    }

    /// Sends the row as a line, and is empty then.
    pub fn send<K: Sink>(&mut self, block: &mut Block, sink: &mut K) {
        self.pass_text(block, sink);
        block.put(sink, b"\n");
        self.restart();
    }

    /// Sends the row as a line, in a colour where colours are wanted, and is empty then.
    pub fn send_as<K: Sink>(
        &mut self,
        block: &mut Block,
        sink: &mut K,
        colour: usize,
        colours: bool,
    ) {
        if colours {
            block.put(sink, b"\x1b[3");
            block.put_number(sink, (colour % COLOURS) as u64 + 1);
            block.put(sink, b"m");
            self.pass_text(block, sink);
            block.put(sink, b"\x1b[0m\n");
            self.restart();
        } else {
            self.send(block, sink);
        }
    }

    // Sends its text.
    fn pass_text<K: Sink>(&self, block: &mut Block, sink: &mut K) {
        block.put(sink, &self.bytes[..self.end.min(ROOM)]);
    }

    /// Sends what the row has as a part of a line, and is empty then.
    pub fn pass<K: Sink>(&mut self, block: &mut Block, sink: &mut K) {
        block.put(sink, &self.bytes[..self.used.min(ROOM)]);
        self.clear();
    }

    // Whether this text stands in the row at this byte.
    fn has_at(&self, text: &[u8], at: usize) -> bool {
        for index in 0..text.len() {
            let place = at.saturating_add(index);
            if place >= ROOM || self.bytes[place] != text[index] {
                return false;
            }
        }
        true
    }

    // Whether the byte here belongs to a word, a number or a name.
    fn is_word_at(&self, at: usize) -> bool {
        at < ROOM && (self.bytes[at].is_ascii_alphanumeric() || self.bytes[at] == b'.')
    }

    /// Whether this text stands in the row from a column on, with no letter, digit or dot right before or behind it.
    pub fn has_word(&self, text: &[u8], from: usize) -> bool {
        for at in from..self.end {
            let starts = at == 0 || !self.is_word_at(at.saturating_sub(1));
            if starts && self.has_at(text, at) && !self.is_word_at(at.saturating_add(text.len())) {
                return true;
            }
        }
        false
    }
}
