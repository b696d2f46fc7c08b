//! `shensteps` lists what a trace and its schedule do on a region heap, atomic step by atomic step.
#![tactic(auto)]

use program_calls::shensteps;
use shen_base::{InSource, OutSink};
use std::alloc::AllocError;
use std::process::ExitCode;
use std::{env, io};
use trace_reading::number_in;

/// The status number where the system refuses the words of the command line, or one is not UTF-8.
const NO_WORDS: u8 = 8;

/// The status number where there is no memory for the words.
const NO_ROOM_FOR_WORDS: u8 = 9;

/// The most columns that a line may be said to have, and those of one of which nothing is said.
const MOST_COLUMNS: u64 = 10_000;

const USUAL_COLUMNS: u64 = 200;

// How many columns a line has, as far as the environment says.
fn width(rt: &HostRuntime) -> u64 {
    match env::var(rt, "COLUMNS") {
        Ok(columns) => number_in(MOST_COLUMNS, columns.as_bytes()).unwrap_or(USUAL_COLUMNS),
        Err(_) => USUAL_COLUMNS,
    }
}

fn main(rt: HostRuntime) -> ExitCode {
    let args = match env::args(&rt) {
        Ok(args) => args,
        Err(error) if error.kind() == io::ErrorKind::OutOfMemory => {
            return ExitCode::from(NO_ROOM_FOR_WORDS);
        }
        Err(_) => return ExitCode::from(NO_WORDS),
    };
    let mut words = Vec::new(rt.alloc());
    for word in args.skip(1) {
        if words.push(word).is_err() {
            return ExitCode::from(NO_ROOM_FOR_WORDS);
        }
    }
    let mut source = InSource::new(rt.stdin());
    let mut sink = OutSink::new(rt.stdout());
    let mut errors = OutSink::new(rt.stderr());
    let status = shensteps(
        rt.alloc(),
        &words,
        width(&rt),
        &mut source,
        &mut sink,
        &mut errors,
    );
    ExitCode::from(status.number())
}
