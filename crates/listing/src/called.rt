//! What the words of a table are called, and of whom they are.

use heap_words::WordName;

/// Of whom or what a word of the table is. All are counted from 0.
#[derive(Clone, Copy)]
pub enum Owner {
    /// Of the heap, which has one such word.
    Heap,
    /// Of a region.
    Region(usize),
    /// Of a seat.
    Seat(usize),
    /// Of a mutator, which has one such word.
    Thread(usize),
    /// Of a mutator, which has several, by its number and that of the word.
    Several(usize, usize),
    /// Of the marks: one of their words.
    Marks(usize),
    /// Of the words in which the objects lie: that of an address.
    Address(u64),
}

/// Of whom or what a word is.
pub fn owner_of(name: WordName) -> Owner {
    match name {
        WordName::Top { region } | WordName::Tams { region } | WordName::Limit { region } => {
            Owner::Region(region)
        }
        WordName::State { seat } | WordName::Current { seat } => Owner::Seat(seat),
        WordName::Count { mutator } | WordName::Wait { mutator } | WordName::Answer { mutator } => {
            Owner::Thread(mutator)
        }
        WordName::Root { mutator, index } => Owner::Several(mutator, index),
        WordName::Buffer { mutator, entry } => Owner::Several(mutator, entry),
        WordName::Pin { mutator, slot } => Owner::Several(mutator, slot),
        WordName::Grey { word } | WordName::Black { word } => Owner::Marks(word),
        WordName::Heap { address } => Owner::Address(address),
        _ => Owner::Heap,
    }
}

/// What a word is called in a line.
pub fn text_of(name: WordName) -> &'static [u8] {
    match name {
        WordName::Pause => b"pause word",
        WordName::Left => b"threads left",
        WordName::End => b"end word",
        WordName::State { .. } => b"state",
        WordName::Phase => b"phase",
        WordName::Cset => b"collection set",
        WordName::Free => b"free regions",
        WordName::Evac => b"copiers",
        WordName::Claim => b"claimed work",
        WordName::Ask => b"what is asked for",
        WordName::Top { .. } => b"top of region",
        WordName::Tams { .. } => b"mark start of region",
        WordName::Limit { .. } => b"limit of region",
        WordName::Current { .. } => b"buffer",
        WordName::Share => b"shared region",
        WordName::Root { .. } => b"root",
        WordName::Count { .. } => b"buffer count",
        WordName::Buffer { .. } => b"buffer entry",
        WordName::Pin { .. } => b"pin slot",
        WordName::Wait { .. } => b"request",
        WordName::Answer { .. } => b"answer",
        WordName::Grey { .. } => b"grey word",
        WordName::Black { .. } => b"black word",
        WordName::Heap { .. } => b"word",
    }
}

/// What a word is called in JSON, where its region or index is a member of its own.
pub fn kind_of(name: WordName) -> &'static [u8] {
    match name {
        WordName::Pause => b"pause",
        WordName::End => b"end",
        WordName::Ask => b"asked for",
        WordName::Top { .. } => b"top",
        WordName::Tams { .. } => b"mark start",
        WordName::Limit { .. } => b"limit",
        WordName::Grey { .. } => b"grey",
        WordName::Black { .. } => b"black",
        _ => text_of(name),
    }
}
