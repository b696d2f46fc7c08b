//! Where the mark of an object stands: each word of the heap has one bit in the words of grey bits and one in the words of
//! black bits, 64 to a word, and an object's mark is the bit of its address. Grey is an object that marking has met, black
//! one whose references it looks at or has looked at.

ghost use Rattle.std.specs.Prelude.{◌≡◌, ◌≢◌, ◌≤◌, ◌<◌, ◌==◌};
ghost use Rattle.std.specs.Int.{bit_at};
ghost use Rattle.heap_words.specs.Access.{table_index};
ghost use Rattle.heap_words.specs.Words.{Heap, Grey, IsWord, bit_words, table_words};
ghost use Rattle.heap_words.specs.Touch.{placed};
ghost use Rattle.regions.specs.Touches.{grey_touch, black_touch};
ghost use Rattle.regions.specs.Marks as marks;

use heap_words::{Access, Config};

/// The words of grey bits, as many as those of black bits.
pub fn mark_words(config: Config) -> usize
    ensures value { result ≡ bit_words config }
    ensures bound { result ≤ 33554432 }
{
    (config.heap_size() + 63) / 64
}

/// The word of marks that has the bit of an address of the heap, counted from 0.
pub fn mark_word(config: Config, address: u64) -> usize
    requires { IsWord config (Heap address) }
    ensures value { result ≡ marks.mark_word config address }
    ensures inside { IsWord config (Grey result) }
{
    (address as usize - config.region_words()) / 64
}

/// The word in which the bit of an address of the heap is set, and no other.
pub fn mark_mask(config: Config, address: u64) -> u64
    requires { IsWord config (Heap address) }
    ensures { result ≡ marks.mark_mask config address }
{
    1 << ((address - config.region_words() as u64) % 64)
}

/// Whether a word of marks has the bit of an address of the heap.
pub fn is_marked_in(config: Config, address: u64, word: u64) -> bool
    requires { IsWord config (Heap address) }
    ensures { result ≡ (bit_at word (marks.mark_bit config address) == 1) }
{
    word >> ((address - config.region_words() as u64) % 64) & 1 == 1
}

/// The access that makes an address of the heap grey.
pub fn grey_access(config: Config, address: u64) -> Access
    requires { IsWord config (Heap address) }
    ensures row { result ≡ placed config (grey_touch config address) }
    ensures inside { table_index result < table_words config }
{
    // keeps KeepsMarking.greys, AreTraced, KeepsMarks and RelyMarks
    Access::or(
        config.grey_at(mark_word(config, address)),
        mark_mask(config, address),
    )
}

/// The access that makes an address of the heap black.
pub fn black_access(config: Config, address: u64) -> Access
    requires { IsWord config (Heap address) }
    ensures row { result ≡ placed config (black_touch config address) }
    ensures inside { table_index result < table_words config }
{
    // keeps KeepsMarking.blacks and AreTraced
    Access::or(
        config.black_at(mark_word(config, address)),
        mark_mask(config, address),
    )
}

/// The address of the lowest bit that is set, in a word of marks of which these bits are some.
pub fn lowest_address(config: Config, word: usize, bits: u64) -> u64
    requires inside { IsWord config (Grey word) }
    requires some { bits ≢ 0 }
    ensures { result ≡ marks.lowest_address config word bits }
{
    config.region_words() as u64 + 64 * word as u64 + bits.trailing_zeros() as u64
}

/// A law: each address of the heap has a bit of its own.
pub fn marks_are_apart()
    ensures { marks.MarksAreApart }
{}
