//! Lines and words.
ghost use Rattle.std.specs.Prelude.{◌≡◌, ◌∷◌, [], ◌==◌, true, false, if◌then◌else◌, ◌<◌, ◌≤◌, length, IfSome, MatchOption};
ghost use Rattle.std.specs.List.{prefix_len};
ghost use Rattle.trace_reading.specs.Causes.{parts, parts_behind};

/// What stands before the first such byte, and the bytes from it on.
pub fn cut(separator: u8, bytes: &[u8]) -> (&[u8], &[u8])
    ensures parts { parts separator bytes.now ≡ result.0.now ∷ parts_behind separator result.1.now }
    ensures shorter { length result.1.now ≤ length bytes.now }
{
    bytes.split_at(before(separator, bytes))
}

/// How many bytes stand before the first such byte.
fn before(separator: u8, bytes: &[u8]) -> usize
    ensures { result ≡ prefix_len (λ byte. if byte == separator then false else true) bytes.now }
{
    for (count, byte) in bytes.iter().enumerate() {
        if *byte == separator {
            return count;
        }
    }
    bytes.len()
}

/// The next word, and the bytes from the space behind it on.
pub fn next_word(words: &[u8]) -> Option<(&[u8], &[u8])>
    ensures shorter { IfSome result (λ cut. length cut.1.now < length words.now) }
    ensures words { MatchOption result (parts_behind 32 words.now ≡ []) (λ cut. parts_behind 32 words.now ≡ cut.0.now ∷ parts_behind 32 cut.1.now) }
{
    match words {
        [_, text @ ..] => Some(cut(b' ', text)),
        [] => None,
    }
}

/// How many words are left.
pub(crate) fn count_words(words: &[u8]) -> usize
    ensures { result ≡ length (parts_behind 32 words.now) }
{
    let mut count = 0;
    let mut rest = words;
    'words: while let Some((_, behind)) = next_word(rest) {
        count += 1;
        rest = behind;
    }
    count
}
