ghost use Rattle.std.specs.Prelude.{◌≡◌};
ghost use Rattle.find_play.specs.Added.{small_said, large_said, index_said, wanted_said};

use crate::Wanted;

/// What a word of a line is to be.
#[derive(Clone, Copy)]
pub enum Slot {
    /// No word is left.
    Nothing,
    /// A number up to this one.
    Small(u32),
    /// A number from one to another.
    Large { least: u64, most: u64 },
    /// The name of a root of the thread.
    Root,
    /// The name of a note.
    Note,
    /// The name of a place.
    Place,
    /// What a reply is asked to be.
    Wanted,
    /// A new name.
    Fresh,
}

/// What a word says.
#[derive(Clone, Copy)]
pub enum Value {
    /// Nothing, or a new name.
    Nothing,
    /// A small number, or the number of a root.
    Small(u32),
    /// A number.
    Large(u64),
    /// The number of a note or of a place, counted from 0.
    Index(usize),
    /// What a reply is asked to be.
    Wanted(Wanted),
}

impl Value {
    /// The small number, 0 for another value.
    pub fn small(self) -> u32
        ensures { result ≡ small_said self }
    {
        match self {
            Value::Small(number) => number,
            _ => 0,
        }
    }

    /// The number, 0 for another value.
    pub fn large(self) -> u64
        ensures { result ≡ large_said self }
    {
        match self {
            Value::Large(number) => number,
            _ => 0,
        }
    }

    /// The number of a note or of a place, 0 for another value.
    pub fn index(self) -> usize
        ensures { result ≡ index_said self }
    {
        match self {
            Value::Index(number) => number,
            _ => 0,
        }
    }

    /// What a reply is asked to be, a null reference for another value.
    pub fn wanted(self) -> Wanted
        ensures { result ≡ wanted_said self }
    {
        match self {
            Value::Wanted(wanted) => wanted,
            _ => Wanted::Null,
        }
    }
}
