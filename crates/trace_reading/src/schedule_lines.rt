//! The lines of a schedule.
ghost use Rattle.std.specs.Prelude.{◌≡◌, ◌↔◌, List, ◌∷◌, [], ◌++◌, Err, IfOk, OnOk, IfErr, IsTrue, ◌≢◌, nat_lt, Some, ◌≤◌, ◌+◌, ◌<◌, ◌^◌, ℕ, length};
ghost use Rattle.std.specs.List.{AllByRecursion};
ghost use Rattle.heap_words.specs.declared.schedule.Item.{Item as Piece};
ghost use Rattle.trace_reading.specs.Spelling.{IsItem, spaced_item, items_and_end, IsScheduleLine, schedule_line};
ghost use Rattle.trace_reading.specs.Front.{IsLineEnd, IsBehindCommands, BeginsWith, BeginsWithNone};
ghost use Rattle.trace_reading.specs.Grammar.{HasScheduled};
ghost use Rattle.trace_reading.specs.declared.why.Why.{Why as Cause};
ghost use Rattle.trace_reading.specs.Faults.{IsTextFault};
ghost use Rattle.trace_reading.specs.Causes.{parts};
ghost use Rattle.trace_reading.specs.Refused.{body_stage, cause_of};
ghost use Rattle.trace_reading.specs.Stops.{StopsTurns};

use crate::fault::{NotTaken, TraceFault};
use crate::items::item_at;
use crate::{body_refusal, text_at};
use heap_words::{Config, Schedule};
use std::alloc::Global;

/// Takes a space and an item, and adds the item to the schedule.
fn take_item<'a>(
    alloc: Global,
    config: &Config,
    bytes: &'a [u8],
    schedule: &mut Schedule,
) -> Result<&'a [u8], NotTaken>
    ensures ok { IfOk result (λ rest. (item : Piece) × BeginsWith spaced_item (IsItem config.now) bytes.now item rest.now × (schedule.new ≡ schedule.old ++ item ∷ [])) }
    ensures refused { result ≡ Err NotTaken.Refused → BeginsWithNone spaced_item (IsItem config.now) bytes.now }
{
    let Some(word) = text_at(b" ", bytes) else {
        return Err(NotTaken::Refused);
    };
    let Some((item, rest)) = item_at(config, word) else {
        return Err(NotTaken::Refused);
    };
    match schedule.push(alloc, item) {
        Ok(()) => Ok(rest),
        Err(_) => Err(NotTaken::NoMemory),
    }
}

/// Whether the line ends here.
fn is_line_end(bytes: &[u8]) -> bool
    ensures { IsTrue result ↔ IsLineEnd bytes.now }
{
    match bytes {
        [first, ..] => *first == b'\n',
        [] => false,
    }
}

/// Takes all items of a line, and its end.
fn take_items<'a>(
    alloc: Global,
    config: &Config,
    bytes: &'a [u8],
    schedule: &mut Schedule,
) -> Result<&'a [u8], NotTaken>
    ensures ok { IfOk result (λ rest. (items : List Piece) × BeginsWith items_and_end (AllByRecursion (IsItem config.now)) bytes.now items rest.now × (schedule.new ≡ schedule.old ++ items)) }
    ensures refused { result ≡ Err NotTaken.Refused → (items : List Piece) (rest : List ℕ) → AllByRecursion (IsItem config.now) items → bytes.now ≢ items_and_end items ++ rest }
{
    let mut rest = bytes;
    'items: while !is_line_end(rest) {
        rest = take_item(alloc, config, rest, schedule)?;
    }
    Ok(&rest[1..])
}

/// Takes a line of the schedule, and adds its items.
fn take_schedule_line<'a>(
    alloc: Global,
    config: &Config,
    bytes: &'a [u8],
    schedule: &mut Schedule,
) -> Result<&'a [u8], NotTaken>
    ensures ok { IfOk result (λ rest. (items : List Piece) × BeginsWith schedule_line (IsScheduleLine config.now) bytes.now items rest.now × (schedule.new ≡ schedule.old ++ items)) }
    ensures refused { result ≡ Err NotTaken.Refused → (items : List Piece) (rest : List ℕ) → IsScheduleLine config.now items → bytes.now ≢ schedule_line items ++ rest }
{
    let Some(items) = text_at(b"!", bytes) else {
        return Err(NotTaken::Refused);
    };
    if is_line_end(items) {
        return Err(NotTaken::Refused);
    }
    take_items(alloc, config, items, schedule)
}

/// Takes all lines of the schedule, to the end of the bytes, of which the first is this line of a trace of the version.
pub(crate) fn take_schedule(
    alloc: Global,
    version: u32,
    config: &Config,
    first: u64,
    bytes: &[u8],
    schedule: &mut Schedule,
) -> Result<(), TraceFault>
    requires few { first + length bytes.now < 2 ^ 64 }
    requires behind { IsBehindCommands bytes.now }
    ensures ok { OnOk result (HasScheduled config.now bytes.now schedule.old schedule.new) }
    ensures fault { IfErr result IsTextFault }
    ensures bad_line { (line_number : ℕ) (why : Cause) → result ≡ Err (TraceFault.BadLine line_number why) → StopsTurns version config.now first bytes.now line_number why }
{
    let mut rest = bytes;
    let mut line = first;
    'turns: while !rest.is_empty() {
        rest = match take_schedule_line(alloc, config, rest, schedule) {
            Ok(behind) => behind,
            Err(NotTaken::NoMemory) => return Err(TraceFault::NoMemory),
            Err(NotTaken::Refused) => return Err(bad_turn(version, config, first, line, rest)),
        };
        line += 1;
    }
    Ok(())
}

/// The fault of bytes that do not begin with a line of the schedule, where the schedule begins at the line `first` and
/// this is the line `line`.
fn bad_turn(version: u32, config: &Config, first: u64, line: u64, bytes: &[u8]) -> TraceFault
    requires some { 1 ≤ length bytes.now }
    requires mark { line ≤ first → IsBehindCommands bytes.now }
    requires refused { (items : List Piece) (rest : List ℕ) → IsScheduleLine config.now items → bytes.now ≢ schedule_line items ++ rest }
    ensures { (why : Cause) × (result ≡ TraceFault.BadLine line why) × (cause_of (body_stage version config.now (nat_lt first line)) (parts 10 bytes.now) ≡ Some why) }
{
    let why = body_refusal(version, config, first < line, bytes).unwrap();
    TraceFault::BadLine { line, why }
}
