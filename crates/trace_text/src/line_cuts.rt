//! Bytes cut at a line.
ghost use Rattle.std.specs.Prelude.{◌≡◌, ◌==◌, ◌≤◌, length, count_by, MatchOption};
ghost use Rattle.trace_reading.specs.Grammar.{most_bytes};
ghost use Rattle.trace_text.specs.LineCuts.{IsCutAt, HasNoLine, last_line};

use trace_reading::line_at;

/// The bytes before the first line that is this text, and the bytes behind it. A line without an end is none.
pub(crate) fn cut_at<'a>(text: &[u8], bytes: &'a [u8]) -> Option<(&'a [u8], &'a [u8])>
    ensures { MatchOption result (HasNoLine text.now bytes.now) (λ cut. IsCutAt text.now bytes.now cut.0.now cut.1.now) }
{
    let mut rest = bytes;
    'lines: while let Some((line, behind)) = line_at(rest) {
        if line == text {
            return Some((&bytes[..bytes.len() - rest.len()], behind));
        }
        rest = behind;
    }
    None
}

// How many lines end in these bytes.
fn ends_in(bytes: &[u8]) -> usize
    ensures count { result ≡ count_by (λ byte. byte == 10) bytes.now }
    ensures few { result ≤ length bytes.now }
{
    bytes.iter().filter(|byte| **byte == b'\n').count()
}

/// The number, counted from 1, of the line in which these bytes end.
pub(crate) fn last_line(bytes: &[u8]) -> u64
    requires { length bytes.now ≤ most_bytes }
    ensures { result ≡ last_line bytes.now }
{
    ends_in(bytes) as u64 + 1
}
