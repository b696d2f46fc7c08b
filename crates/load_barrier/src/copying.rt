ghost use Rattle.std.specs.Prelude.{◌≡◌, ◌<◌, ◌^◌, true};
ghost use Rattle.heap_words.specs.Ranges.{seat_count};
ghost use Rattle.heap_words.specs.Access.{table_index};
ghost use Rattle.heap_words.specs.Words.{Heap, IsWord, table_words, word_at};
ghost use Rattle.heap_words.specs.Touch.{placed};
ghost use Rattle.load_barrier.specs.Rows as rows;
ghost use Rattle.load_barrier.specs.Fit.{copy_ready};

use crate::spot::ResolveSpot;
use heap_words::{Access, Config, Place, buffer, forwardee, header_to};

// The header of an object that is its own current copy.
const PLAIN_HEADER: u64 = 1;

/// Where a machine stands that copies an object into room of its own.
#[derive(Clone, Copy)]
pub enum CopySpot {
    /// It loads a word of the object.
    LoadWord {
        /// The words of the object.
        words: u64,
        /// The word, counted from 0.
        index: u64,
    },
    /// It stores that word into the copy.
    StoreWord {
        /// The words of the object.
        words: u64,
        /// The word, counted from 0.
        index: u64,
        /// What it has found.
        found: u64,
    },
    /// All words behind the header are copied: it stores the header of the copy.
    StoreHeader,
    /// The copy is whole: it puts the copy's address over the old header, unless another machine has done so.
    Publish,
    /// Another machine was faster: it gives its room back to its buffer.
    GiveBack {
        /// The copy of the other machine.
        answer: u64,
    },
}

impl CopySpot {
    /// The place of the next access.
    pub fn place(self) -> Place
        ensures { result ≡ rows.copy_place self }
    {
        match self {
            CopySpot::LoadWord { .. } => Place::CL,
            CopySpot::StoreWord { .. } => Place::CP,
            CopySpot::StoreHeader => Place::HI,
            CopySpot::Publish => Place::HX,
            CopySpot::GiveBack { .. } => Place::GB,
        }
    }

    /// The next access of the machine of a seat that copies the object at the address into room that begins at `copy`, out of a buffer
    /// that ends at `end`.
    pub fn access(self, config: Config, seat: usize, address: u64, copy: u64, end: u64) -> Access
        requires seat { seat < seat_count config.mutators config.helpers }
        requires end { end < 2 ^ 32 }
        requires address { IsWord config (Heap address) }
        requires ready { copy_ready config address copy self ≡ true }
        ensures row { result ≡ placed config (rows.copy_touch seat address copy end self) }
        ensures inside { table_index result < table_words config }
    {
        match self {
            CopySpot::LoadWord { index, .. } => Access::load(config.heap_at(address + index)),
            // keeps AreObjects and RelyCopies: the word is in hand
            CopySpot::StoreWord { index, found, .. } => Access::store(
                config.heap_at(copy + index),
                found,
            ),
            // keeps AreObjects and HaveMoved: the word is in hand
            CopySpot::StoreHeader => Access::store(config.heap_at(copy), PLAIN_HEADER),
            // keeps HaveMoved, AreObjects, AreKept of heap_world and Target
            // keeps KeepsSnapshot.kept, IsWalkedTo and NameTheSame
            CopySpot::Publish => Access::exchange(
                config.heap_at(address),
                PLAIN_HEADER,
                header_to(copy),
            ),
            // keeps AreBuffers, AreRooms and AreKept of heap_world
            CopySpot::GiveBack { .. } => Access::store(config.cur_at(seat), buffer(copy, end)),
        }
    }

    /// Where the machine stands after it, by the word that the access has found.
    pub fn after(self, config: Config, address: u64, copy: u64, end: u64, got: u64) -> ResolveSpot
        requires ready { copy_ready config address copy self ≡ true }
        ensures row { result ≡ rows.after_copy copy end self got }
    {
        let at = match self {
            CopySpot::LoadWord { words, index } => CopySpot::StoreWord {
                words,
                index,
                found: got,
            },
            CopySpot::StoreWord { words, index, .. } if index + 1 < words => CopySpot::LoadWord {
                words,
                index: index + 1,
            },
            CopySpot::StoreWord { .. } => CopySpot::StoreHeader,
            CopySpot::StoreHeader => CopySpot::Publish,
            CopySpot::Publish if got != PLAIN_HEADER => CopySpot::GiveBack {
                answer: forwardee(got),
            },
            CopySpot::Publish => return ResolveSpot::Leaving { answer: copy },
            CopySpot::GiveBack { answer } => return ResolveSpot::Leaving { answer },
        };
        ResolveSpot::Copying { copy, end, at }
    }
}
