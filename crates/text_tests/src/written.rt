// Lines, traces and answers as they are written, also to sinks that take a few bytes at a time and that fail.
ghost use Rattle.std.specs.Prelude.{◌≡◌, length, IfOk};
ghost use Rattle.shen_graph.specs.Work.{HasScript};

use crate::sources_sinks::sink;
use churn::Summary;
use shen_base::{MemorySink, PlainSource, WriteFault};
use shen_graph::{GraphText, Script, Work};
use std::alloc::{AllocError, Global};
use std::slice::from_ref;
use std::test::Fail;
use trace_reading::{Why, read_trace};
use trace_text::{Answer, Line, read_traces_can_be_written, write_answer, write_line, write_trace};

// Whether the sink was given this text, and there was no fault; or, where one is wanted, its first bytes, and there was one.
fn has(
    sink: &MemorySink,
    ending: &Result<(), WriteFault>,
    text: &str,
    front: Option<usize>,
) -> bool {
    match front {
        None => ending.is_ok() && sink.bytes() == text.as_bytes(),
        Some(bytes) => ending.is_err() && text.as_bytes().get(..bytes) == Some(sink.bytes()),
    }
}

// How many bytes a sink takes at a time, which call fails, and how many bytes were taken before it.
const SINKS: [(usize, u64, Option<usize>); 4] = [
    (1, 0, None),
    (7, 0, None),
    (4, 2, Some(4)),
    (7, 1, Some(0)),
];

const LINES: [(Line, &str); 8] = [
    (Line::BadWords, "bad words\n"),
    (
        Line::BadLine {
            line: 1,
            why: Why::EndOfLine,
        },
        "bad line 1: end of line wanted\n",
    ),
    (
        Line::BadLine {
            line: 16_777_216,
            why: Why::Range,
        },
        "bad line 16777216: out of range\n",
    ),
    (Line::TooLong, "too long: more than 16777216 bytes\n"),
    (
        Line::Unfinished {
            steps: 4_000_000_000,
        },
        "unfinished after 4000000000 steps\n",
    ),
    (Line::ReadFault, "read fault\n"),
    (Line::NoMemory, "out of memory\n"),
    (
        Line::Churn(Summary {
            seed: 0,
            count: 20_000,
            commands: 1,
            bad: 2,
            full: 3,
            objects: 4,
            words: 5,
            sum: 18_446_744_073_709_551_615,
        }),
        "churn 0 20000\nthreads 3\ncommands 1\nbad 2\nfull 3\nobjects 4\nwords 5\nsum 18446744073709551615\n",
    ),
];

#[test]
fn each_line_has_its_text(rt: HostRuntime) -> Result<(), Fail> {
    for (line, text) in &LINES {
        for (piece, failing, front) in &SINKS {
            let mut sink = sink(rt.alloc(), 1000, *piece, *failing)?;
            let ending = write_line(&mut sink, line);
            assert!(rt; has(&sink, &ending, text, *front));
        }
    }
    Ok(())
}

// Traces, and how they are written.
const TRACES: [(&str, &str); 5] = [
    (
        "shen 1\nheap 4 64 0\nthreads 1 0\n",
        "shen 1\nheap 4 64 0\nthreads 1 0\n",
    ),
    (
        "shen 1\nheap 64 1024 63\nthreads 8 3\n8 gc\n! 12:4000000000\n",
        "shen 1\nheap 64 1024 63\nthreads 8 3\n8 gc\n! 12:4000000000\n",
    ),
    (
        "shen 1\nheap 8 64 1\nthreads 2 1\n2 gc\n1 new 15 16 0\n2 rd 3 31\n1 drop 15\n! 1:3 2@CX\n! 4:1\n! 1=2\n",
        "shen 1\nheap 8 64 1\nthreads 2 1\n1 new 15 16 0\n1 drop 15\n2 gc\n2 rd 3 31\n! 1:3 2@CX 4:1 1=2\n",
    ),
    (ALL_COMMANDS, ALL_COMMANDS),
    (PINS, PINS),
];

const ALL_COMMANDS: &str = "shen 1
heap 8 64 0
threads 1 0
1 new 1 2 3
1 get 4 5 6
1 set 7 8 9
1 cas 10 11 12 13
1 xchg 14 15 16 0
1 rd 1 17
1 wr 2 18 18446744073709551615
1 copy 3 4
1 drop 5
1 same 6 7
1 gc
";

const PINS: &str = "shen 2
heap 8 64 0
threads 1 0
1 gc
1 pin 3 15
1 unpin 0
! 1@PB 1@PN
";

// Writes the trace that this text is.
fn rewrite(
    alloc: Global,
    text: &str,
    sink: &mut MemorySink,
) -> Result<Result<(), WriteFault>, AllocError> {
    let mut source = PlainSource::new(text.as_bytes().to_vec(alloc)?);
    let Ok(trace) = read_trace(alloc, &mut source) else {
        return Err(AllocError);
    };
    read_traces_can_be_written();
    Ok(write_trace(sink, &trace))
}

#[test]
fn a_trace_is_written_thread_by_thread(rt: HostRuntime) -> Result<(), Fail> {
    for (text, wanted) in &TRACES {
        for (piece, failing, front) in &SINKS {
            let mut sink = sink(rt.alloc(), 1000, *piece, *failing)?;
            let ending = rewrite(rt.alloc(), text, &mut sink)?;
            assert!(rt; has(&sink, &ending, wanted, *front));
        }
    }
    Ok(())
}

// The answer of a thread without a command, to a trace of a version.
fn answer(alloc: Global, version: u32) -> Result<Answer, AllocError>
    ensures script { IfOk result (λ answer. HasScript answer.replies 0) }
    ensures threads { IfOk result (λ answer. length answer.graph.roots ≡ 1) }
{
    let Ok(script) = Script::open(alloc) else {
        return Err(AllocError);
    };
    let Ok(replies) = Work::open(alloc, from_ref(&script)) else {
        return Err(AllocError);
    };
    let Ok(graph) = GraphText::open(alloc, 0, 1) else {
        return Err(AllocError);
    };
    Ok(Answer {
        version,
        replies,
        graph,
    })
}

// Versions, and what is written.
const ANSWERS: [(u32, &str); 2] = [
    (1, "graph\nroots 1 - - - - - - - - - - - - - - - -\n"),
    (
        2,
        "graph\nroots 1 - - - - - - - - - - - - - - - -\npins 1 - - - -\n",
    ),
];

#[test]
fn an_answer_is_written(rt: HostRuntime) -> Result<(), Fail> {
    for (version, text) in &ANSWERS {
        let answer = answer(rt.alloc(), *version)?;
        for (piece, failing, front) in &SINKS {
            let mut sink = sink(rt.alloc(), 1000, *piece, *failing)?;
            let ending = write_answer(&mut sink, &answer);
            assert!(rt; has(&sink, &ending, text, *front));
        }
    }
    Ok(())
}
