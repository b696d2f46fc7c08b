//! Judging a history.
ghost use Rattle.std.specs.Prelude.{IfOk};
ghost use Rattle.shen_check.specs.Judged.{CanBeJudged, IsVerdict};

use crate::judge::Judge;
use crate::verdict::Verdict;
use shen_graph::{History, NoMemory};
use std::alloc::Global;
use trace_reading::Trace;

/// Judges a history that somebody claims for a trace, and a body that is to be the text that answers for it, byte for byte.
/// The trace is to have a script for each of its threads, of commands in range, each shorter than 2^32 − 1. `NoMemory` where
/// memory is refused. A history and a body have one verdict at most, so each comes exactly where it is the one.
pub fn check(
    alloc: Global,
    trace: &Trace,
    history: &History,
    body: &[u8],
) -> Result<Verdict, NoMemory>
    requires { CanBeJudged trace.now.config trace.now.scripts }
    ensures { IfOk result (IsVerdict trace.now.version trace.now.config trace.now.scripts history.now.list body.now) }
{
    let mut judge = Judge::open(alloc, trace)?;
    for at in 0..history.len() {
        if !judge.take(alloc, trace, history, at)? {
            return Ok(Verdict::Entry { at: at as u64 });
        }
    }
    let threads = trace.config.mutators();
    if let Some(thread) = judge.first_left(threads) {
        return Ok(Verdict::Script { thread });
    }
    if judge.is_answered_by(alloc, trace.version, threads, body)? {
        Ok(Verdict::Yes)
    } else {
        Ok(Verdict::Text)
    }
}
