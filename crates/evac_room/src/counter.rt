ghost use Rattle.std.specs.Prelude.{◌≡◌};
ghost use Rattle.heap_words.specs.Counter as counter;

/// Bit 63 of the word that counts the copiers: a copier found no room.
const OUT_OF_ROOM: u64 = 9223372036854775808;

/// Whether a copier found no room.
pub(crate) fn is_out_of_room(word: u64) -> bool
    ensures { result ≡ counter.is_out_of_room word }
{
    word >= OUT_OF_ROOM
}

/// How many copiers the word counts.
pub(crate) fn count_of(word: u64) -> u64
    ensures { result ≡ counter.count_of word }
{
    word % OUT_OF_ROOM
}

/// The word with bit 63 set, and one copier less.
pub(crate) fn marked(word: u64) -> u64
    ensures { result ≡ counter.marked word }
{
    OUT_OF_ROOM + count_of(word) - 1
}
