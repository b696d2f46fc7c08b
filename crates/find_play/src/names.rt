//! Names, each of which stands for its number.
ghost use Rattle.std.specs.Prelude.{◌≡◌, ◌<◌, [], ◌∷◌, ◌++◌, length, IfOk, OnOk, OnErr, slice_index_or};
ghost use Rattle.find_play.specs.NameNumbers.{others, number_of};

use shen_graph::NoMemory;
use std::alloc::Global;
use std::marker::Model;

/// A name of a test. Contracts see it as its bytes.
#[derive(Drop)]
struct Word {
    bytes: Vec<u8>,
}

impl Model for Word {
    ghost use Rattle.std.specs.Prelude.{ℕ, List};

    ghost Value = { List ℕ };

    ghost view = { λ word. word.bytes.items };
}

/// Names, counted from 0. Contracts see them as a list of lists of bytes.
#[derive(Drop)]
pub struct Names {
    words: Vec<Word>,
}

impl Model for Names {
    ghost use Rattle.std.specs.Prelude.{ℕ, List};

    ghost Value = { List (List ℕ) };

    ghost view = { λ names. names.words.items };
}

impl Names {
    /// No names.
    pub fn open(alloc: Global) -> Names
        ensures { result ≡ [] }
    {
        Names {
            words: Vec::new(alloc),
        }
    }

    /// Adds a name, which stands for the next number.
    pub fn push(&mut self, alloc: Global, name: &[u8]) -> Result<(), NoMemory>
        ensures ok { OnOk result (self.new ≡ self.old ++ name.now ∷ []) }
        ensures kept { OnErr result (self.new ≡ self.old) }
    {
        let mut bytes = Vec::new(alloc);
        bytes.extend_from_slice(name)?;
        self.words.push(Word { bytes })?;
        Ok(())
    }

    /// How many there are.
    pub fn len(&self) -> usize
        ensures { result ≡ length self.now }
    {
        self.words.len()
    }

    /// The name of a number, counted from 0.
    pub fn name(&self, number: usize) -> &[u8]
        requires { number < length self.now }
        ensures { result.now ≡ slice_index_or self.now number [] }
    {
        &self.words[number].bytes
    }

    /// How many names stand before this one, all of them where it is none.
    fn before(&self, name: &[u8]) -> usize
        ensures { result ≡ others self.now name.now }
    {
        for (count, word) in self.words.iter().enumerate() {
            if word.bytes.as_slice() == name {
                return count;
            }
        }
        self.words.len()
    }

    /// The number that a name stands for.
    pub fn find(&self, name: &[u8]) -> Option<usize>
        ensures { result ≡ number_of self.now name.now }
    {
        let number = self.before(name);
        if number < self.words.len() {
            Some(number)
        } else {
            None
        }
    }
}
