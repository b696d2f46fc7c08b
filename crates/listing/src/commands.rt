//! Commands as a trace spells them.

use crate::row::Row;
use shen_graph::Command;

// Puts a word and numbers behind it, each after a space.
fn put_words(row: &mut Row, word: &[u8], numbers: &[u32]) {
    row.put(word);
    for number in numbers {
        row.put_with(b" ", *number as u64);
    }
}

// Puts a command on a field that stores.
fn put_store(row: &mut Row, command: Command) {
    match command {
        Command::Set { obj, field, val } => put_words(row, b"set", &[obj, field, val]),
        Command::Cas {
            obj,
            field,
            expect,
            val,
        } => put_words(row, b"cas", &[obj, field, expect, val]),
        Command::Xchg {
            dst,
            obj,
            field,
            val,
        } => put_words(row, b"xchg", &[dst, obj, field, val]),
        Command::Wr { obj, index, value } => {
            put_words(row, b"wr", &[obj, index]);
            row.put_with(b" ", value);
        }
        _ => row.put(b"gc"),
    }
}

/// Puts a command.
pub fn put_command(row: &mut Row, command: Command) {
    match command {
        Command::New { dst, refs, nums } => put_words(row, b"new", &[dst, refs, nums]),
        Command::Get { dst, src, field } => put_words(row, b"get", &[dst, src, field]),
        Command::Rd { obj, index } => put_words(row, b"rd", &[obj, index]),
        Command::Copy { dst, src } => put_words(row, b"copy", &[dst, src]),
        Command::Drop { dst } => put_words(row, b"drop", &[dst]),
        Command::Same { a, b } => put_words(row, b"same", &[a, b]),
        Command::Pin { slot, obj } => put_words(row, b"pin", &[slot, obj]),
        Command::Unpin { slot } => put_words(row, b"unpin", &[slot]),
        _ => put_store(row, command),
    }
}
