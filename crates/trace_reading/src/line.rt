//! A command's line.
ghost use Rattle.std.specs.Prelude.{◌≡◌};
ghost use Rattle.std.specs.Option.{option_map};
ghost use Rattle.trace_reading.specs.Scanning.{spelled_command, line_at};

use crate::{kind_at, numbers_at, positive_at, text_at};
use shen_graph::Command;

/// The command of a version at the front, and what is behind its numbers.
#[tactic(auto, unfolding(crate::specs::Scanning::spelled_command))]
pub fn command_at(version: u32, bytes: &[u8]) -> Option<(Command, &[u8])>
    ensures { option_map (λ x. (x.0, x.1.now)) result ≡ spelled_command version bytes.now }
{
    let (kind, rest) = kind_at(version, bytes)?;
    let (numbers, rest) = numbers_at(kind.limits(), rest)?;
    Some((kind.command(numbers), rest))
}

/// The line of a command of a version at the front: the thread, the command, and the bytes behind the line.
#[tactic(auto, unfolding(crate::specs::Scanning::line_at))]
pub(crate) fn line_at(version: u32, threads: u32, bytes: &[u8]) -> Option<(u64, Command, &[u8])>
    ensures { option_map (λ x. (record { thread = x.0; command = x.1 }, x.2.now)) result ≡ line_at version threads bytes.now }
{
    let Some((thread, rest)) = positive_at(u64::from(threads), bytes) else {
        return None;
    };
    let Some(rest) = text_at(b" ", rest) else {
        return None;
    };
    let Some((command, rest)) = command_at(version, rest) else {
        return None;
    };
    let Some(rest) = text_at(b"\n", rest) else {
        return None;
    };
    Some((thread, command, rest))
}
