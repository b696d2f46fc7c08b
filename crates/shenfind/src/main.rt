//! `shenfind` looks for the schedule of a test that breaks one of its claims.
#![tactic(auto)]

use program_calls::shenfind;
use shen_base::{InSource, OutSink};
use std::alloc::AllocError;
use std::process::ExitCode;
use std::{env, io};

/// The status number where the system refuses the words of the command line, or one is not UTF-8.
const NO_WORDS: u8 = 8;

/// The status number where there is no memory for the words.
const NO_ROOM_FOR_WORDS: u8 = 9;

fn main(rt: HostRuntime) -> ExitCode {
    let args = match env::args(&rt) {
        Ok(args) => args,
        Err(error) if error.kind() == io::ErrorKind::OutOfMemory => {
            return ExitCode::from(NO_ROOM_FOR_WORDS);
        }
        Err(_) => return ExitCode::from(NO_WORDS),
    };
    let mut words = Vec::new(rt.alloc());
    for word in args.skip(1) {
        if words.push(word).is_err() {
            return ExitCode::from(NO_ROOM_FOR_WORDS);
        }
    }
    let mut source = InSource::new(rt.stdin());
    let mut sink = OutSink::new(rt.stdout());
    let mut errors = OutSink::new(rt.stderr());
    let status = shenfind(rt.alloc(), &words, &mut source, &mut sink, &mut errors);
    ExitCode::from(status.number())
}
