//! Sources that fail at one of their calls, and sinks that fail or have too little room: what the program says of each, and what
//! it has written by then.
use program_calls::shenrun;
use shen_base::{MemorySink, MemorySource};
use std::alloc::Global;
use std::sync::Wait;
use std::test::Fail;
use std::thread::Threads;
use table_heap::OpenGate;
use trace_runs::Status;

/// A trace of 67 bytes. A source that gives 8 at a time is called nine times for them, and once more for the end.
const TRACE: &str = "shen 1\nheap 4 64 0\nthreads 1 0\n1 new 1 1 1\n1 set 0 3 1\n1 get 2 0 3\n";

/// Its answer, of 133 bytes.
const ANSWER: &str =
    "1 1.1\n1 ok\n1 1.1\ngraph\nobject 0.1 - - - 1.1 - - - - - - - - - - - - /\nobject 1.1 - / 0\nroots 1 0.1 1.1 1.1 - - - - - - - - - - - - -\n";

/// Replays the trace, from a source whose call of this number fails, if it makes as many, into a sink with so much room whose
/// calls of these numbers fail.
fn replayed<R: Threads + Wait + Sync>(
    rt: &R,
    alloc: Global,
    bad_read: u64,
    room: usize,
    bad_write: Option<u64>,
) -> Result<(Status, Vec<u8>), Fail> {
    let mut words = Vec::new(alloc);
    words.push(String::from_str(alloc, "replay")?)?;
    let mut bad_reads = Vec::new(alloc);
    bad_reads.push(bad_read)?;
    let mut bad_writes = Vec::new(alloc);
    if let Some(call) = bad_write {
        bad_writes.push(call)?;
    }
    let mut source = MemorySource::new(Vec::from_slice(alloc, TRACE.as_bytes())?, 8, bad_reads);
    let mut sink = MemorySink::with_room(alloc, room, 5, bad_writes)?;
    let status = shenrun(rt, alloc, &words, &mut source, &mut sink, &OpenGate);
    Ok((status, Vec::from_slice(alloc, sink.bytes())?))
}

/// Each of the ten calls of the source fails in turn: the one line is all that is written. An eleventh call is not made.
#[test]
fn a_read_fails_at_each_call(rt: HostRuntime) -> Result<(), Fail> {
    for call in 1..=11u64 {
        let (status, written) = replayed(&rt, rt.alloc(), call, 200, None)?;
        let (wanted, text) = if call == 11 {
            (Status::Ok, ANSWER)
        } else {
            (Status::ReadFault, "read fault\n")
        };
        assert!(rt; status == wanted && written.as_slice() == text.as_bytes());
    }
    Ok(())
}

/// A sink with room for fewer bytes than the answer has gets just so many of them, and one that fails at its first call gets none.
#[test]
fn a_write_fails_behind_each_byte(rt: HostRuntime) -> Result<(), Fail> {
    let answer = ANSWER.as_bytes();
    for room in 0..=133usize {
        let (status, written) = replayed(&rt, rt.alloc(), 11, room, None)?;
        let wanted = if room == 133 {
            Status::Ok
        } else {
            Status::WriteFault
        };
        assert!(rt;
            status == wanted && written.len() == room && answer.starts_with(written.as_slice())
        );
    }
    let (status, written) = replayed(&rt, rt.alloc(), 11, 200, Some(1))?;
    assert!(rt; status == Status::WriteFault && written.is_empty());
    Ok(())
}
