//! The entries of a history.
ghost use Rattle.std.specs.Prelude.{◌≡◌, ◌++◌, IfOk};
ghost use Rattle.std.specs.List.{flat_map, AllByRecursion};
ghost use Rattle.std.specs.Option.{option_map};
ghost use Rattle.shen_graph.specs.Noting.{seen};
ghost use Rattle.trace_text.specs.History.{entry_line};
ghost use Rattle.trace_text.specs.Entries.{IsClaim, BeginsWithNoEntry, entry_at};

use crate::replies::reply_at;
use shen_graph::{Entry, History, NoMemory};
use std::alloc::Global;
use trace_reading::{command_at, positive_at, text_at};

/// The line of an entry at the front, of a version and where there are so many threads, and the bytes behind it.
#[tactic(auto, unfolding(crate::specs::Entries::entry_at))]
fn entry_at(version: u32, threads: u32, bytes: &[u8]) -> Option<(Entry, &[u8])>
    ensures { option_map (λ x. (seen x.0, x.1.now)) result ≡ entry_at version threads bytes.now }
{
    let Some((thread, rest)) = positive_at(u64::from(threads), bytes) else {
        return None;
    };
    let Some(rest) = text_at(b" ", rest) else {
        return None;
    };
    let Some((command, rest)) = command_at(version, rest) else {
        return None;
    };
    let Some(rest) = text_at(b" : ", rest) else {
        return None;
    };
    let Some((reply, rest)) = reply_at(rest) else {
        return None;
    };
    let Some(rest) = text_at(b"\n", rest) else {
        return None;
    };
    let entry = Entry {
        thread: thread as u32,
        command,
        reply,
    };
    Some((entry, rest))
}

/// The entries of the lines at the front, up to the first line that is none, and the bytes from that one on.
pub(crate) fn entries_in(
    alloc: Global,
    version: u32,
    threads: u32,
    bytes: &[u8],
) -> Result<(History, &[u8]), NoMemory>
    ensures taken { IfOk result (λ taken. AllByRecursion (IsClaim version threads) taken.0.list × (bytes.now ≡ flat_map entry_line taken.0.list ++ taken.1.now)) }
    ensures none { IfOk result (λ taken. BeginsWithNoEntry version threads taken.1.now) }
{
    let mut history = History::open(alloc)?;
    let mut rest = bytes;
    'entries: while let Some((entry, behind)) = entry_at(version, threads, rest) {
        history.push(alloc, entry.thread, entry.command, entry.reply)?;
        rest = behind;
    }
    Ok((history, rest))
}
