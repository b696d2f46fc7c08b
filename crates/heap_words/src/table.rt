ghost use Rattle.std.specs.Prelude.{◌≡◌, ◌<◌, vec_len, slice_index};
ghost use Rattle.heap_words.specs.Access.{table_index, got_of};
ghost use Rattle.heap_words.specs.Steps.{accessed};

use crate::Access;

/// Makes an access in a table of words, and returns the word that it found there. The table is at least as long as the
/// access asks for.
pub fn make_access(words: &mut Vec<u64>, access: Access) -> u64
    requires { table_index access < vec_len words.old }
    ensures words { words.new.items ≡ accessed access words.old.items }
    ensures got { result ≡ got_of access (slice_index words.old.items (table_index access)) }
{
    let at = access.at();
    let found = words[at];
    words[at] = access.made(found);
    found
}
