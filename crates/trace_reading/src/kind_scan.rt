//! The word of a command's kind.
ghost use Rattle.std.specs.Prelude.{◌≡◌};
ghost use Rattle.std.specs.Option.{option_map};
ghost use Rattle.trace_reading.specs.Kinds.{kinds};
ghost use Rattle.trace_reading.specs.Scanning.{kind_among};

use crate::kind::{CommandKind, kinds_of};
use crate::scan::text_at;

/// The first of these kinds whose word stands at the front, and what is behind the word.
fn kind_among<'a>(kinds: &[CommandKind], bytes: &'a [u8]) -> Option<(CommandKind, &'a [u8])>
    ensures { option_map (λ x. (x.0, x.1.now)) result ≡ kind_among kinds.now bytes.now }
{
    for kind in kinds {
        if let Some(rest) = text_at(kind.word(), bytes) {
            return Some((*kind, rest));
        }
    }
    None
}

/// The kind of a version whose word stands at the front, and what is behind the word.
pub fn kind_at(version: u32, bytes: &[u8]) -> Option<(CommandKind, &[u8])>
    ensures { option_map (λ x. (x.0, x.1.now)) result ≡ kind_among (kinds version) bytes.now }
{
    kind_among(kinds_of(version), bytes)
}
