//! Whether a trace can have an object of a name.

use shen_graph::{Command, Script};
use trace_reading::{Trace, number_in};

// The most threads of a heap.
const THREADS: u64 = 8;

// How many objects a script makes at most.
fn made_by(script: &Script) -> u64 {
    let mut count: u64 = 0;
    for command in script.list() {
        if matches!(command, Command::New { .. }) {
            count = count.saturating_add(1);
        }
    }
    count
}

// The texts before and behind the first dot.
fn parts(name: &[u8]) -> Option<(&[u8], &[u8])> {
    for at in 0..name.len() {
        if name[at] == b'.' {
            return Some((&name[..at], &name[at + 1..]));
        }
    }
    None
}

/// Whether a name is that of the hub, or of an object that a thread of the trace makes if it is not refused.
pub fn may_be_made(trace: &Trace, name: &[u8]) -> bool {
    let Some((thread, count)) = parts(name) else {
        return false;
    };
    if thread == b"0".as_slice() {
        return count == b"1".as_slice();
    }
    let Some(thread) = number_in(THREADS, thread) else {
        return false;
    };
    match trace.scripts.list().get(thread.saturating_sub(1) as usize) {
        Some(script) => number_in(made_by(script), count).is_some(),
        None => false,
    }
}
