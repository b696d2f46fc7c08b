//! Lines of a trace, taken one by one.
ghost use Rattle.trace_reading.specs.Spelling.{IsVersion};

use heap_words::{Config, Item};
use shen_graph::Command;
use std::alloc::{AllocError, Global};
use std::test::Fail;
use trace_reading::Why;
use trace_text::{LineFault, TraceLines};

// No line yet of a version, of a heap of four regions and one thread.
fn none(alloc: Global, version: u32) -> Result<TraceLines, AllocError>
    requires { IsVersion version }
{
    let Ok(config) = Config::new(4, 64, 1, 0, 0) else {
        return Err(AllocError);
    };
    match TraceLines::open(alloc, config, version) {
        Ok(lines) => Ok(lines),
        Err(_) => Err(AllocError),
    }
}

// Lines, and the causes for which they are not taken.
const LINES: [(&str, Option<Why>); 14] = [
    ("1 new 3 1 2", None),
    ("1 new 3 1", Some(Why::Command)),
    ("2 gc", Some(Why::Range)),
    ("1 new 03 1 2", Some(Why::Number)),
    ("1 gc", None),
    ("1 pin 3 15", None),
    ("1 pin 4 15", Some(Why::Range)),
    ("1 unpin", Some(Why::Command)),
    ("1 unpin 0", None),
    ("!", Some(Why::Item)),
    ("! 1:3", None),
    ("1 gc", Some(Why::ScheduleLast)),
    ("! 1:01", Some(Why::Item)),
    ("! 1:4", None),
];

const COMMANDS: [Command; 4] = [
    Command::New {
        dst: 3,
        refs: 1,
        nums: 2,
    },
    Command::Gc,
    Command::Pin { slot: 3, obj: 15 },
    Command::Unpin { slot: 0 },
];

// Lines that version 1 does not have.
const LATER: [&str; 3] = ["1 pin 3 15", "1 unpin 0", "1 pin 4"];

#[test]
fn version_1_has_no_pins(rt: HostRuntime) -> Result<(), Fail> {
    let mut lines = none(rt.alloc(), 1)?;
    for text in &LATER {
        let fault = lines.line(rt.alloc(), text.as_bytes()).err();
        assert!(rt; fault == Some(LineFault::Bad { why: Why::Command }));
    }
    assert!(rt; lines.end().version == 1);
    Ok(())
}

#[test]
fn a_bad_line_leaves_those_before_and_the_next_is_taken(rt: HostRuntime) -> Result<(), Fail> {
    let mut lines = none(rt.alloc(), 2)?;
    for (text, cause) in &LINES {
        let fault = lines.line(rt.alloc(), text.as_bytes()).err();
        assert!(rt; fault == cause.map(|why| LineFault::Bad { why }));
    }
    let trace = lines.end();
    let [script] = trace.scripts.list() else {
        assert!(rt; false);
        return Ok(());
    };
    assert!(rt; script.list() == COMMANDS.as_slice());
    assert!(rt;
        matches!(
            trace.schedule.list(),
            [
                Item::Steps {
                    number: 0,
                    count: 3
                },
                Item::Steps {
                    number: 0,
                    count: 4
                }
            ]
        )
    );
    Ok(())
}
