//! Dumps and what is to run from them: read, or refused at a line.
use heap_dump::{read_dump, write_dump};
use shen_base::{MemorySink, PlainSource};
use shen_graph::Command;
use std::alloc::{AllocError, Global};
use std::test::Fail;
use trace_reading::{TraceFault, Why};

const HEAD: &str = "dump 1\nheap 4 64 0\nthreads 1 0\n";

const NONE: &str = "counts 0\n";

const ONE: &str = "counts 1\n";

const HUB: &str = "object 0.1 - - - 1.1 - - - - - - - - - - - - /\n";

const BARE: &str = "object 0.1 - - - - - - - - - - - - - - - - /\n";

const LEAF: &str = "object 1.1 - / 0\n";

const ROOTS: &str = "roots 1 0.1 - - - - - - - - - - - - - - -\n";

const NULLS: &str = "roots 1 - - - - - - - - - - - - - - - -\n";

const MARK: &str = "trace\n";

// The bytes of these pieces.
fn text(alloc: Global, pieces: &[&str]) -> Result<Vec<u8>, AllocError> {
    let mut text = Vec::new(alloc);
    for piece in pieces {
        text.extend_from_slice(piece.as_bytes())?;
    }
    Ok(text)
}

// Whether this dump and these lines behind it are read, the dump is written as it was, and the thread has these commands and so many
// items are to run.
fn is_read(
    alloc: Global,
    dump: &[&str],
    behind: &str,
    commands: &[Command],
    items: usize,
) -> Result<bool, AllocError> {
    let mut whole = text(alloc, dump)?;
    whole.extend_from_slice(MARK.as_bytes())?;
    whole.extend_from_slice(behind.as_bytes())?;
    let Ok(resumed) = read_dump(alloc, &mut PlainSource::new(whole)) else {
        return Ok(false);
    };
    let Ok(mut sink) = MemorySink::with_room(alloc, 1000, 100, Vec::new(alloc)) else {
        return Err(AllocError);
    };
    let is_whole = write_dump(&mut sink, &resumed.dump).is_ok();
    let [script] = resumed.trace.scripts.list() else {
        return Ok(false);
    };
    let is_wanted = script.list() == commands && resumed.trace.schedule.list().len() == items;
    Ok(is_whole && is_wanted && sink.bytes() == text(alloc, dump)?.as_slice())
}

const COMMANDS: [Command; 3] = [
    Command::New {
        dst: 3,
        refs: 1,
        nums: 2,
    },
    Command::Gc,
    Command::Unpin { slot: 2 },
];

#[test]
fn a_dump_is_read(rt: HostRuntime) -> Result<(), Fail> {
    let null = [HEAD, NONE, NULLS];
    let one = [HEAD, ONE, HUB, LEAF, ROOTS];
    let lines = "1 new 3 1 2\n1 gc\n1 unpin 2\n! 1:3\n! 1=2 1@CX\n";
    assert!(rt; is_read(rt.alloc(), &null, "", &[], 0)?);
    assert!(rt; is_read(rt.alloc(), &one, "", &[], 0)?);
    assert!(rt; is_read(rt.alloc(), &one, lines, &COMMANDS, 3)?);
    Ok(())
}

// The pieces that the letters stand for.
fn pieces(letters: &[u8; 5]) -> [&'static str; 5] {
    let mut pieces = [""; 5];
    for at in 0..5 {
        pieces[at] = match letters[at] {
            b'N' => NONE,
            b'O' => ONE,
            b'H' => HUB,
            b'B' => BARE,
            b'L' => LEAF,
            b'R' => ROOTS,
            b'U' => NULLS,
            b'T' => MARK,
            b'c' => "counts 4000000001\n",
            b'e' => "counts\n",
            b'f' => "object 0.1 - - - 1.99999999999999999999 - - - - - - - - - - - - /\n",
            b'z' => "object 0.1 - - - 1.01 - - - - - - - - - - - - /\n",
            b's' => "object 0.1 - - - 1.1 - - - - - - - - - - - /\n",
            b'r' => "roots 1 0.1 - - - - - - - - - - - - - -\n",
            b'o' => "roots 2 0.1 - - - - - - - - - - - - - - -\n",
            b't' => "trace \n",
            _ => "",
        };
    }
    pieces
}

// The pieces behind the head, and the line that is refused as no line of a dump.
const REFUSED: [([u8; 5], u64); 17] = [
    (*b"OHRT.", 7),
    (*b"OBLRT", 8),
    (*b"OLHRT", 6),
    (*b"OHLLR", 7),
    (*b"NHLRT", 6),
    (*b"OfRT.", 7),
    (*b"OzLRT", 5),
    (*b"OsLRT", 5),
    (*b"cHLRT", 4),
    (*b"NU...", 6),
    (*b"NTU..", 5),
    (*b"NUBT.", 6),
    (*b"NUt..", 6),
    (*b"OHrT.", 6),
    (*b".....", 4),
    (*b"eUT..", 4),
    (*b"OHLoT", 7),
];

// Whether the text of this head and these pieces is refused at this line, for this cause.
fn is_refused(
    alloc: Global,
    head: &str,
    pieces: &[&str],
    line: u64,
    why: Why,
) -> Result<bool, AllocError> {
    let mut whole = head.as_bytes().to_vec(alloc)?;
    whole.extend_from_slice(&text(alloc, pieces)?)?;
    let fault = read_dump(alloc, &mut PlainSource::new(whole)).err();
    Ok(fault == Some(TraceFault::BadLine { line, why }))
}

#[test]
fn no_dump_is_refused_at_its_first_bad_line(rt: HostRuntime) -> Result<(), Fail> {
    for (letters, line) in &REFUSED {
        let pieces = pieces(letters);
        assert!(rt; is_refused(rt.alloc(), HEAD, &pieces, *line, Why::DumpWanted)?);
    }
    Ok(())
}

// Whole texts, the line that is refused, and why.
const ENDS: [([&str; 7], u64, Why); 5] = [
    ([""; 7], 1, Why::DumpWanted),
    (["dump 1", "", "", "", "", "", ""], 1, Why::EndOfLine),
    (["dump 1\n", "", "", "", "", "", ""], 2, Why::DumpWanted),
    ([HEAD, NONE, NULLS, "trac", "", "", ""], 6, Why::EndOfLine),
    (
        [HEAD, ONE, HUB, LEAF, ROOTS, MARK, "1 gc\n1 new 3 0\n"],
        10,
        Why::Command,
    ),
];

#[test]
fn an_end_and_a_command_are_refused(rt: HostRuntime) -> Result<(), Fail> {
    for (pieces, line, why) in &ENDS {
        assert!(rt; is_refused(rt.alloc(), "", pieces, *line, *why)?);
    }
    Ok(())
}
