//! One line after the other.
ghost use Rattle.std.specs.Prelude.{◌≡◌, ℕ, List, [], ◌∷◌, ◌<◌, length, IfOk, IfErr, IfSome, MatchOption};
ghost use Rattle.trace_reading.specs.declared.why.Why.TheVariants as cause;
ghost use Rattle.trace_reading.specs.Causes.{parts, parts_behind};
ghost use Rattle.heap_dump.specs.DumpLines.{ends_by};

use trace_reading::{TraceFault, Why, cut};

/// The line of this number is refused where a line of a dump is wanted.
pub(crate) fn dump_wanted(line: u64) -> TraceFault
    ensures { result ≡ TraceFault.BadLine line cause.DumpWanted }
{
    TraceFault::BadLine {
        line,
        why: Why::DumpWanted,
    }
}

/// The line at the front, whose number is this, without its end, and the bytes behind it. Where the bytes end in the line or
/// before it, that is its fault.
pub(crate) fn line_at(line: u64, bytes: &[u8]) -> Result<(&[u8], &[u8]), TraceFault>
    ensures ok { IfOk result (λ cut. parts 10 bytes.now ≡ cut.0.now ∷ parts 10 cut.1.now) }
    ensures err { IfErr result (λ fault. (text : List ℕ) × (parts 10 bytes.now ≡ text ∷ []) × (fault ≡ TraceFault.BadLine line (ends_by text))) }
{
    let (text, end) = cut(b'\n', bytes);
    match end {
        [_, rest @ ..] => Ok((text, rest)),
        [] if text.is_empty() => Err(dump_wanted(line)),
        [] => Err(TraceFault::BadLine {
            line,
            why: Why::EndOfLine,
        }),
    }
}

/// The words behind the first of the line at the front, if it has an end and its first word is this, and the bytes behind the line.
pub(crate) fn line_of<'a>(title: &[u8], bytes: &'a [u8]) -> Option<(&'a [u8], &'a [u8])>
    ensures shorter { IfSome result (λ cut. length cut.1.now < length bytes.now) }
    ensures line { MatchOption result ((text rest : List ℕ) (words : List (List ℕ)) → parts 10 bytes.now ≡ text ∷ parts 10 rest → parts 32 text ≡ title.now ∷ words → ⊥)
        (λ cut. (text : List ℕ) × (parts 10 bytes.now ≡ text ∷ parts 10 cut.1.now) × (parts 32 text ≡ title.now ∷ parts_behind 32 cut.0.now)) }
{
    let (text, end) = cut(b'\n', bytes);
    let (_, behind) = end.split_first()?;
    let (word, words) = cut(b' ', text);
    if word == title {
        Some((words, behind))
    } else {
        None
    }
}
