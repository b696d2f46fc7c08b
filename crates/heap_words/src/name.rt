ghost use Rattle.std.specs.Prelude.{◌≡◌, ◌+◌, ◌*◌, ◌<◌};
ghost use Rattle.heap_words.specs.Words.{Word, IsWord, word_at, table_words, image_start, roots_start};
ghost use Rattle.heap_words.specs.Rows.{name_of, AreNamed, AreReadWhole};
ghost use Rattle.heap_words.specs.Name.{word_of, name_numbers, same_name};
ghost use Rattle.std.specs.Cmp.{partial_equiv_from_equiv, on_equiv, nat_eq_equiv};
ghost use Rattle.std.specs.Cmp.Lexicographic.{lists_equiv};

use super::config::Config;
use std::fmt;
use std::fmt::{Debug, Formatter, Write};

/// A word of the table by what it is for. Mutators, seats, regions and words of bits are counted from 0.
#[derive(Clone, Copy)]
pub enum WordName {
    /// Whether a pause is wanted or runs.
    Pause,
    /// The mutators that have not ended.
    Left,
    /// Whether the control has ended.
    End,
    /// Whether a mutator or helper is inside the heap.
    State { seat: usize },
    /// The phase.
    Phase,
    /// The collection set.
    Cset,
    /// The free regions.
    Free,
    /// The copiers.
    Evac,
    /// The units of work that were claimed.
    Claim,
    /// What is asked for.
    Ask,
    /// The used words of a region.
    Top { region: usize },
    /// The top of a region when marking began.
    Tams { region: usize },
    /// The top of a region when updating began.
    Limit { region: usize },
    /// The buffer of a seat.
    Current { seat: usize },
    /// A root of a mutator.
    Root { mutator: usize, index: usize },
    /// The entries of a mutator's SATB buffer.
    Count { mutator: usize },
    /// An entry of a mutator's SATB buffer.
    Buffer { mutator: usize, entry: usize },
    /// A mutator's waiting request.
    Wait { mutator: usize },
    /// The answer to a mutator's request.
    Answer { mutator: usize },
    /// A word of grey bits.
    Grey { word: usize },
    /// A word of black bits.
    Black { word: usize },
    /// The heap's word of an address.
    Heap { address: u64 },
    /// The region that all seats carve buffers out of.
    Share,
    /// A pin slot of a mutator.
    Pin { mutator: usize, slot: usize },
}

// The kinds of names, in their order.
const KINDS: [&str; 24] = [
    "Pause", "Left", "End", "State", "Phase", "Cset", "Free", "Evac", "Claim", "Ask", "Top",
    "Tams", "Limit", "Current", "Root", "Count", "Buffer", "Wait", "Answer", "Grey", "Black",
    "Heap", "Share", "Pin",
];

impl WordName {
    // Its kind and its numbers; 0 where it has no such number.
    fn numbers(&self) -> [u64; 3]
        ensures { result ≡ name_numbers self.now }
    {
        match *self {
            WordName::Pause => [0, 0, 0],
            WordName::Left => [1, 0, 0],
            WordName::End => [2, 0, 0],
            WordName::State { seat } => [3, seat as u64, 0],
            WordName::Phase => [4, 0, 0],
            WordName::Cset => [5, 0, 0],
            WordName::Free => [6, 0, 0],
            WordName::Evac => [7, 0, 0],
            WordName::Claim => [8, 0, 0],
            WordName::Ask => [9, 0, 0],
            WordName::Top { region } => [10, region as u64, 0],
            WordName::Tams { region } => [11, region as u64, 0],
            WordName::Limit { region } => [12, region as u64, 0],
            WordName::Current { seat } => [13, seat as u64, 0],
            WordName::Root { mutator, index } => [14, mutator as u64, index as u64],
            WordName::Count { mutator } => [15, mutator as u64, 0],
            WordName::Buffer { mutator, entry } => [16, mutator as u64, entry as u64],
            WordName::Wait { mutator } => [17, mutator as u64, 0],
            WordName::Answer { mutator } => [18, mutator as u64, 0],
            WordName::Grey { word } => [19, word as u64, 0],
            WordName::Black { word } => [20, word as u64, 0],
            WordName::Heap { address } => [21, address, 0],
            WordName::Share => [22, 0, 0],
            WordName::Pin { mutator, slot } => [23, mutator as u64, slot as u64],
        }
    }
}

impl PartialEq for WordName {
    ghost eq = { same_name };

    ghost laws = { partial_equiv_from_equiv (on_equiv name_numbers (lists_equiv nat_eq_equiv)) };

    fn eq(&self, other: &WordName) -> bool {
        self.numbers() == other.numbers()
    }
}

impl Eq for WordName {
    ghost laws = { on_equiv name_numbers (lists_equiv nat_eq_equiv) };
}

/// Written as its kind with its numbers.
impl Debug for WordName {
    fn fmt<W: Write>(&self, f: &mut Formatter<W>) -> fmt::Result {
        let [kind, first, second] = self.numbers();
        let kinds = &KINDS;
        (kinds[kind as usize % 24], first, second).fmt(f)
    }
}

impl Config {
    /// The name of the word that has this index in the table: it undoes the indices of all words.
    pub fn name_of(&self, at: usize) -> WordName
        requires { at < table_words self.now }
        ensures name { word_of result ≡ name_of self.now at }
        ensures word { IsWord self.now (word_of result) }
        ensures place { word_at self.now (word_of result) ≡ at }
        ensures only { (word : Word) → IsWord self.now word → word_at self.now word ≡ at → word ≡ word_of result }
    {
        self.name_there(at)
    }

    // The word that stands at this place.
    fn name_there(&self, at: usize) -> WordName
        requires { at < table_words self.now }
        ensures word { IsWord self.now (word_of result) }
        ensures place { word_at self.now (word_of result) ≡ at }
    {
        if at < self.image_start() {
            self.outer_name(at)
        } else if at < self.roots_start() {
            self.image_name(at - self.image_start())
        } else if at < self.marks_start() {
            self.mutator_name(at - self.roots_start())
        } else if at < self.marks_start() + self.bit_words() {
            WordName::Grey {
                word: at - self.marks_start(),
            }
        } else if at < self.heap_start() {
            WordName::Black {
                word: at - self.marks_start() - self.bit_words(),
            }
        } else if at < self.heap_start() + self.heap_size() {
            let address = at - self.heap_start() + self.region_words;
            WordName::Heap {
                address: address as u64,
            }
        } else if at == self.share_at() {
            WordName::Share
        } else {
            let before = at - self.share_at() - 1;
            WordName::Pin {
                mutator: before / 4,
                slot: before % 4,
            }
        }
    }

    // The name of a word before the image.
    fn outer_name(&self, at: usize) -> WordName
        requires { at < image_start self.now }
        ensures word { IsWord self.now (word_of result) }
        ensures place { word_at self.now (word_of result) ≡ at }
    {
        match at {
            0 => WordName::Pause,
            1 => WordName::Left,
            2 => WordName::End,
            _ => WordName::State { seat: at - 3 },
        }
    }

    // The name of a word of the image before those of the mutators, by how many words stand before it there.
    fn image_name(&self, before: usize) -> WordName
        requires { image_start self.now + before < roots_start self.now }
        ensures word { IsWord self.now (word_of result) }
        ensures place { word_at self.now (word_of result) ≡ image_start self.now + before }
    {
        match before {
            0 => WordName::Phase,
            1 => WordName::Cset,
            2 => WordName::Free,
            3 => WordName::Evac,
            4 => WordName::Claim,
            5 => WordName::Ask,
            _ => self.region_name(before - 6),
        }
    }

    // The name of a word of the regions, or of a buffer, by how many words of these stand before it.
    fn region_name(&self, before: usize) -> WordName
        requires { image_start self.now + 6 + before < roots_start self.now }
        ensures word { IsWord self.now (word_of result) }
        ensures place { word_at self.now (word_of result) ≡ image_start self.now + 6 + before }
    {
        let regions = self.regions;
        if before < regions {
            WordName::Top { region: before }
        } else if before < 2 * regions {
            WordName::Tams {
                region: before - regions,
            }
        } else if before < 3 * regions {
            WordName::Limit {
                region: before - 2 * regions,
            }
        } else {
            WordName::Current {
                seat: before - 3 * regions,
            }
        }
    }

    // The name of a word of the mutators, by how many of these stand before it.
    fn mutator_name(&self, before: usize) -> WordName
        requires { before < 27 * self.now.mutators }
        ensures word { IsWord self.now (word_of result) }
        ensures place { word_at self.now (word_of result) ≡ roots_start self.now + before }
    {
        let mutators = self.mutators;
        if before < 16 * mutators {
            WordName::Root {
                mutator: before / 16,
                index: before % 16,
            }
        } else if before < 17 * mutators {
            WordName::Count {
                mutator: before - 16 * mutators,
            }
        } else if before < 25 * mutators {
            let entries = before - 17 * mutators;
            WordName::Buffer {
                mutator: entries / 8,
                entry: entries % 8,
            }
        } else if before < 26 * mutators {
            WordName::Wait {
                mutator: before - 25 * mutators,
            }
        } else {
            WordName::Answer {
                mutator: before - 26 * mutators,
            }
        }
    }
}

/// A law: each index of the table is that of one word, and all words together say all of a table.
pub fn words_named()
    ensures named { AreNamed }
    ensures whole { AreReadWhole }
{}
