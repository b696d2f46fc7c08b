//! Where a pause says that the heap is full.
ghost use Rattle.std.specs.Prelude.{◌≡◌, ◌<◌, length};
ghost use Rattle.heap_words.specs.Rows.{name_of};
ghost use Rattle.heap_words.specs.Access.{table_index};
ghost use Rattle.heap_words.specs.Words.{table_words};
ghost use Rattle.heap_machines.specs.Settles.{refused_access, refused_word};

use heap_words::{Access, Config, WordName};

/// The mutator, counted from 0, to which an access says that the heap is full, if it does so: it stores the answer 1 over none.
/// `words` are those of the table before the access.
pub(crate) fn refused(config: Config, words: &[u64], access: Access) -> Option<usize>
    requires inside { table_index access < table_words config }
    requires words { length words.now ≡ table_words config }
    ensures { result ≡ refused_access config words.now access }
{
    match access {
        Access::Store { at, value } => stored_refusal(config, at, words[at], value),
        _ => None,
    }
}

// The mutator to which it is said that the heap is full where a number is stored over the word of an index.
fn stored_refusal(config: Config, at: usize, before: u64, after: u64) -> Option<usize>
    requires { at < table_words config }
    ensures { result ≡ refused_word (name_of config at) before after }
{
    if before == 0 && after == 1 {
        if let WordName::Answer { mutator } = config.name_of(at) {
            return Some(mutator);
        }
    }
    None
}
