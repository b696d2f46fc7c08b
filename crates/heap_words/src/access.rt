ghost use Rattle.std.specs.Prelude.{◌≡◌};
ghost use Rattle.heap_words.specs.Access.{table_index, made_of, access_numbers, same_access};
ghost use Rattle.std.specs.Cmp.{partial_equiv_from_equiv, on_equiv, nat_eq_equiv};
ghost use Rattle.std.specs.Cmp.Lexicographic.{lists_equiv};

use std::fmt;
use std::fmt::{Debug, Formatter, Write};

/// One access of one word of the table, at the index `at`.
#[derive(Clone, Copy)]
pub enum Access {
    /// Reads the word.
    Load {
        /// The index.
        at: usize,
    },
    /// Writes the word.
    Store {
        /// The index.
        at: usize,
        /// What is written.
        value: u64,
    },
    /// Reads the word and writes it.
    Swap {
        /// The index.
        at: usize,
        /// What is written.
        value: u64,
    },
    /// Adds to the word, modulo 2^64.
    Add {
        /// The index.
        at: usize,
        /// What is added.
        value: u64,
    },
    /// Subtracts from the word, modulo 2^64.
    Sub {
        /// The index.
        at: usize,
        /// What is subtracted.
        value: u64,
    },
    /// Keeps those bits of the word that are also bits of `value`.
    And {
        /// The index.
        at: usize,
        /// The bits that may stay.
        value: u64,
    },
    /// Sets the bits of `value` in the word.
    Or {
        /// The index.
        at: usize,
        /// The bits that are set.
        value: u64,
    },
    /// Writes the word where it is `expect` (compare and exchange), and leaves it where not.
    Exchange {
        /// The index.
        at: usize,
        /// What the word must be.
        expect: u64,
        /// What is written then.
        value: u64,
    },
}

impl Access {
    ghost use Rattle.heap_words.specs.declared.access.Access.TheVariants as accesses;

    /// Reads the word at the index.
    #[inline(always)]
    pub fn load(at: usize) -> Access
        ensures { result ≡ accesses.Load at }
    {
        Access::Load { at }
    }

    /// Writes the word at the index.
    #[inline(always)]
    pub fn store(at: usize, value: u64) -> Access
        ensures { result ≡ accesses.Store at value }
    {
        Access::Store { at, value }
    }

    /// Reads the word at the index and writes it.
    #[inline(always)]
    pub fn swap(at: usize, value: u64) -> Access
        ensures { result ≡ accesses.Swap at value }
    {
        Access::Swap { at, value }
    }

    /// Adds to the word at the index, modulo 2^64.
    #[inline(always)]
    pub fn add(at: usize, value: u64) -> Access
        ensures { result ≡ accesses.Add at value }
    {
        Access::Add { at, value }
    }

    /// Subtracts from the word at the index, modulo 2^64.
    #[inline(always)]
    pub fn sub(at: usize, value: u64) -> Access
        ensures { result ≡ accesses.Sub at value }
    {
        Access::Sub { at, value }
    }

    /// Keeps those bits of the word at the index that are also bits of the value.
    #[inline(always)]
    pub fn and(at: usize, value: u64) -> Access
        ensures { result ≡ accesses.And at value }
    {
        Access::And { at, value }
    }

    /// Sets the bits of the value in the word at the index.
    #[inline(always)]
    pub fn or(at: usize, value: u64) -> Access
        ensures { result ≡ accesses.Or at value }
    {
        Access::Or { at, value }
    }

    /// Writes the value at the index where the word there is the expected one.
    #[inline(always)]
    pub fn exchange(at: usize, expect: u64, value: u64) -> Access
        ensures { result ≡ accesses.Exchange at expect value }
    {
        Access::Exchange { at, expect, value }
    }

    /// The index of the word that is accessed.
    pub fn at(self) -> usize
        ensures { result ≡ table_index self }
    {
        match self {
            Access::Load { at } => at,
            Access::Store { at, .. } => at,
            Access::Swap { at, .. } => at,
            Access::Add { at, .. } => at,
            Access::Sub { at, .. } => at,
            Access::And { at, .. } => at,
            Access::Or { at, .. } => at,
            Access::Exchange { at, .. } => at,
        }
    }

    /// What the access makes of the word that it finds.
    pub fn made(self, found: u64) -> u64
        ensures { result ≡ made_of self found }
    {
        match self {
            Access::Load { .. } => found,
            Access::Store { value, .. } => value,
            Access::Swap { value, .. } => value,
            Access::Add { value, .. } => found.wrapping_add(value),
            Access::Sub { value, .. } => found.wrapping_sub(value),
            Access::And { value, .. } => found & value,
            Access::Or { value, .. } => found | value,
            Access::Exchange { expect, value, .. } => {
                if found == expect { value } else { found }
            }
        }
    }
}

// The kinds of accesses, in their order.
const KINDS: [&str; 8] = [
    "Load", "Store", "Swap", "Add", "Sub", "And", "Or", "Exchange",
];

impl Access {
    // Its kind, its place, what it writes and what it expects; 0 where it has no such number.
    fn numbers(&self) -> [u64; 4]
        ensures { result ≡ access_numbers self.now }
    {
        match *self {
            Access::Load { at } => [0, at as u64, 0, 0],
            Access::Store { at, value } => [1, at as u64, value, 0],
            Access::Swap { at, value } => [2, at as u64, value, 0],
            Access::Add { at, value } => [3, at as u64, value, 0],
            Access::Sub { at, value } => [4, at as u64, value, 0],
            Access::And { at, value } => [5, at as u64, value, 0],
            Access::Or { at, value } => [6, at as u64, value, 0],
            Access::Exchange { at, expect, value } => [7, at as u64, value, expect],
        }
    }
}

impl PartialEq for Access {
    ghost eq = { same_access };

    ghost laws = { partial_equiv_from_equiv (on_equiv access_numbers (lists_equiv nat_eq_equiv)) };

    fn eq(&self, other: &Access) -> bool {
        self.numbers() == other.numbers()
    }
}

impl Eq for Access {
    ghost laws = { on_equiv access_numbers (lists_equiv nat_eq_equiv) };
}

/// Written as its kind, its place, what it writes and what it expects.
impl Debug for Access {
    fn fmt<W: Write>(&self, f: &mut Formatter<W>) -> fmt::Result {
        let [kind, at, value, expect] = self.numbers();
        let kinds = &KINDS;
        (kinds[kind as usize % 8], at, value, expect).fmt(f)
    }
}

/// What a machine says after a step.
#[derive(Clone, Copy, PartialEq, Eq)]
pub enum Took {
    /// It has more to do.
    More,
    /// It waits for another machine, and will look again.
    Again,
    /// It has ended its call.
    Done,
}

/// What a machine that does units of a phase's work says at the end of one.
#[derive(Clone, Copy, PartialEq, Eq)]
pub enum Unit {
    /// It has done a unit.
    Worked,
    /// No unit was left to claim.
    NoneLeft,
}
