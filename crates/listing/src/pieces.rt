//! What lies in a region, one piece behind the other.

use crate::table::{Room, Table};
use crate::view::{base, heap_word, region_of, top};
use heap_words::{end_of, filler_words, next_of, words_of};

/// What a piece is. Machines are counted from 0.
#[derive(Clone, Copy, PartialEq, Eq)]
pub enum Kind {
    /// An object, also a dead one or an old copy.
    Object,
    /// Words that only fill.
    Filler,
    /// The free words of a machine's buffer.
    Free(usize),
    /// Words that a machine has carved and that are no buffer yet.
    Carved(usize),
    /// Room that a machine has in hand and that is no object yet.
    Hand(usize),
}

/// A piece of a region.
#[derive(Clone, Copy)]
pub struct Piece {
    /// What it is.
    pub kind: Kind,
    /// Its first address.
    pub at: u64,
    /// The address behind it.
    pub next: u64,
}

impl Piece {
    /// Its words.
    pub fn words(&self) -> u64 {
        self.next.saturating_sub(self.at)
    }

    /// Whether it is an object.
    pub fn is_object(&self) -> bool {
        matches!(self.kind, Kind::Object)
    }

    /// Whether it only fills.
    pub fn is_filler(&self) -> bool {
        matches!(self.kind, Kind::Filler)
    }
}

/// The word of a machine's buffer, or 0 where there is no such machine.
pub fn buffer_of(table: &Table, seat: usize) -> u64 {
    let config = table.config();
    if seat < config.seats() {
        table.word(config.cur_at(seat))
    } else {
        0
    }
}

/// The region in which a machine's buffer lies, if it has one.
pub fn region_of_buffer(table: &Table, seat: usize) -> Option<usize> {
    match buffer_of(table, seat) {
        0 => None,
        word => region_of(table, end_of(word).saturating_sub(1)),
    }
}

/// The shared region, counted from 0, if there is one.
pub fn shared_region(table: &Table) -> Option<usize> {
    match table.word(table.config().share_at()) {
        0 => None,
        word => Some(word.saturating_sub(1).min(64) as usize),
    }
}

// The room that begins at an address, with its machine: words in hand, carved ones, or the free words of a buffer.
fn room_at(table: &Table, at: u64) -> Option<Piece> {
    for seat in 0..table.config().seats() {
        let Room {
            from,
            to,
            is_carved,
        } = table.room(seat);
        if from == at && at < to {
            let kind = if is_carved {
                Kind::Carved(seat)
            } else {
                Kind::Hand(seat)
            };
            return Some(Piece { kind, at, next: to });
        }
        let word = buffer_of(table, seat);
        if next_of(word) == at && at < end_of(word) {
            let kind = Kind::Free(seat);
            return Some(Piece {
                kind,
                at,
                next: end_of(word),
            });
        }
    }
    None
}

// What lies at an address where no room begins, by its words.
fn filled_at(table: &Table, at: u64) -> Piece {
    let (kind, words) = match filler_words(heap_word(table, at)) {
        Some(words) => (Kind::Filler, words),
        None => (
            Kind::Object,
            words_of(heap_word(table, at.saturating_add(1))),
        ),
    };
    Piece {
        kind,
        at,
        next: at.saturating_add(words),
    }
}

/// The piece that begins at an address, or None where the used words of its region end there, or the piece would go beyond.
pub fn piece_at(table: &Table, at: u64, end: u64) -> Option<Piece> {
    let piece = match room_at(table, at) {
        Some(room) => room,
        None => filled_at(table, at),
    };
    if at >= end || piece.next > end {
        None
    } else {
        Some(piece)
    }
}

/// The addresses between which a region's used words lie.
pub fn used(table: &Table, region: usize) -> (u64, u64) {
    let first = base(table, region);
    (first, first.saturating_add(top(table, region)))
}

/// The piece in which an address lies, by a walk through its region; None where it lies in none.
pub fn piece_with(table: &Table, address: u64) -> Option<Piece> {
    let (mut at, end) = used(table, region_of(table, address)?);
    for _ in 0..1024 {
        let piece = piece_at(table, at, end)?;
        if address < piece.next {
            return Some(piece);
        }
        at = piece.next;
    }
    None
}
