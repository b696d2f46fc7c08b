ghost use Rattle.std.specs.Prelude.{◌≤◌};

use crate::table::Table;
use heap_words::{Config, WordName, count_of, refs_of, thread_of};
use shen_graph::Name;

/// The heap's word of an address, or 0 where no word has it.
pub fn heap_word(table: &Table, address: u64) -> u64 {
    let config = table.config();
    let start = config.region_words() as u64;
    if address < start || address - start >= config.heap_size() as u64 {
        return 0;
    }
    table.word(config.heap_start() + (address - start) as usize)
}

/// The used words of a region, counted from 0.
pub fn top(table: &Table, region: usize) -> u64 {
    let config = table.config();
    if region < config.regions() {
        table.word(config.top_at(region))
    } else {
        0
    }
}

/// The first address of a region.
pub fn base(table: &Table, region: usize) -> u64 {
    let words = table.config().region_words() as u64;
    (region.min(64) as u64 + 1) * words
}

/// The region of an address, or None where no word of the heap has it.
pub fn region_of(table: &Table, address: u64) -> Option<usize> {
    let config = table.config();
    let words = config.region_words() as u64;
    if words == 0 || address < words {
        return None;
    }
    let region = address / words - 1;
    if region < config.regions() as u64 {
        Some(region as usize)
    } else {
        None
    }
}

/// The name of the object at an address.
pub fn name_at(table: &Table, address: u64) -> Name {
    let word = heap_word(table, address.saturating_add(2));
    Name {
        thread: thread_of(word),
        count: count_of(word),
    }
}

/// A word of an object.
#[derive(Clone, Copy)]
pub enum Part {
    /// The header.
    Header,
    /// The shape word.
    Shape,
    /// The name word.
    Name,
    /// A reference, counted from 0.
    Field(u64),
    /// A number, counted from 0.
    Number(u64),
}

impl Part {
    /// What it is called.
    pub fn text(self) -> &'static [u8] {
        match self {
            Part::Header => b"header",
            Part::Shape => b"shape",
            Part::Name => b"name",
            Part::Field(_) => b"field",
            Part::Number(_) => b"number",
        }
    }

    /// Which reference or number it is.
    pub fn index(self) -> Option<u64> {
        match self {
            Part::Field(index) | Part::Number(index) => Some(index),
            _ => None,
        }
    }
}

// The part of an object that begins so many words behind its name, of which the first are references.
fn behind_words(refs: u64, index: u64) -> Part {
    if index < refs {
        Part::Field(index)
    } else {
        Part::Number(index.saturating_sub(refs))
    }
}

/// Which word of the object at `object` an address is.
pub fn part_of(table: &Table, object: u64, address: u64) -> Part {
    let refs = refs_of(heap_word(table, object.saturating_add(1)));
    match address.saturating_sub(object) {
        0 => Part::Header,
        1 => Part::Shape,
        2 => Part::Name,
        offset => behind_words(refs, offset.saturating_sub(3)),
    }
}

/// How a word is to be read.
#[derive(Clone, Copy)]
pub enum Reading {
    /// As a number.
    Number,
    /// As a header.
    Header,
    /// As how many machines copy.
    Copiers,
    /// As a reference.
    Reference,
    /// As an answer: none, full, or a reference.
    Answer,
    /// As a set of regions.
    Regions,
    /// As the free words of a buffer, or none.
    Buffer,
    /// As a region, or none.
    Shared,
    /// As what is asked for.
    Ask,
    /// As a state: in or out.
    State,
    /// As a request.
    Request,
    /// As a shape.
    Shape,
    /// As a name.
    Name,
    /// As marks: a bit for each address, from this one on.
    Marks {
        /// The address of bit 0.
        first: u64,
    },
}

/// How a word of an object is to be read.
pub fn reading_of_part(part: Part) -> Reading {
    match part {
        Part::Header => Reading::Header,
        Part::Shape => Reading::Shape,
        Part::Name => Reading::Name,
        Part::Field(_) => Reading::Reference,
        Part::Number(_) => Reading::Number,
    }
}

// The address of bit 0 in a word of marks, counted from 0.
fn first_marked(config: Config, word: usize) -> u64 {
    let before = (word as u64).saturating_mul(64);
    (config.region_words() as u64).saturating_add(before)
}

/// How a word outside the heap is to be read.
pub fn reading_of(config: Config, name: WordName) -> Reading {
    match name {
        WordName::State { .. } => Reading::State,
        WordName::Cset | WordName::Free => Reading::Regions,
        WordName::Ask => Reading::Ask,
        WordName::Evac => Reading::Copiers,
        WordName::Current { .. } => Reading::Buffer,
        WordName::Share => Reading::Shared,
        WordName::Root { .. } | WordName::Buffer { .. } | WordName::Pin { .. } => {
            Reading::Reference
        }
        WordName::Wait { .. } => Reading::Request,
        WordName::Answer { .. } => Reading::Answer,
        WordName::Grey { word } | WordName::Black { word } => Reading::Marks {
            first: first_marked(config, word),
        },
        _ => Reading::Number,
    }
}
