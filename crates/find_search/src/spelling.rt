//! The text of a trace.

use heap_words::{Config, Item, NoMemory};
use shen_graph::{Command, Script};
use std::alloc::Global;

// Adds a piece.
fn put(text: &mut Vec<u8>, piece: &[u8]) -> Result<(), NoMemory> {
    match text.extend_from_slice(piece) {
        Ok(()) => Ok(()),
        Err(_) => Err(NoMemory),
    }
}

// Adds a number.
fn put_number(text: &mut Vec<u8>, number: u64) -> Result<(), NoMemory> {
    let mut digits = [b'0'; 20];
    let mut left = number;
    for step in 0..20 {
        let at = 19 - step;
        digits[at] = b'0' + (left % 10) as u8;
        if left < 10 {
            return put(text, &digits[at..]);
        }
        left /= 10;
    }
    put(text, &digits)
}

// Adds a word, and numbers with a space before each.
fn put_words(text: &mut Vec<u8>, word: &[u8], numbers: &[u64]) -> Result<(), NoMemory> {
    put(text, word)?;
    for number in numbers {
        put(text, b" ")?;
        put_number(text, *number)?;
    }
    Ok(())
}

// Adds a command.
fn put_command(text: &mut Vec<u8>, command: Command) -> Result<(), NoMemory> {
    match command {
        Command::New { dst, refs, nums } => {
            put_words(text, b"new", &[dst as u64, refs as u64, nums as u64])
        }
        Command::Get { dst, src, field } => {
            put_words(text, b"get", &[dst as u64, src as u64, field as u64])
        }
        Command::Set { obj, field, val } => {
            put_words(text, b"set", &[obj as u64, field as u64, val as u64])
        }
        Command::Cas {
            obj,
            field,
            expect,
            val,
        } => {
            let numbers = [obj as u64, field as u64, expect as u64, val as u64];
            put_words(text, b"cas", &numbers)
        }
        Command::Xchg {
            dst,
            obj,
            field,
            val,
        } => {
            let numbers = [dst as u64, obj as u64, field as u64, val as u64];
            put_words(text, b"xchg", &numbers)
        }
        Command::Rd { obj, index } => put_words(text, b"rd", &[obj as u64, index as u64]),
        Command::Wr { obj, index, value } => {
            put_words(text, b"wr", &[obj as u64, index as u64, value])
        }
        Command::Copy { dst, src } => put_words(text, b"copy", &[dst as u64, src as u64]),
        Command::Drop { dst } => put_words(text, b"drop", &[dst as u64]),
        Command::Same { a, b } => put_words(text, b"same", &[a as u64, b as u64]),
        Command::Gc => put_words(text, b"gc", &[]),
        Command::Pin { slot, obj } => put_words(text, b"pin", &[slot as u64, obj as u64]),
        Command::Unpin { slot } => put_words(text, b"unpin", &[slot as u64]),
    }
}

// Adds the three lines at the head of a trace of a version.
fn put_head(text: &mut Vec<u8>, version: u32, config: &Config) -> Result<(), NoMemory> {
    put_words(text, b"shen", &[version as u64])?;
    put(text, b"\n")?;
    let heap = [
        config.regions() as u64,
        config.region_words() as u64,
        config.reserve() as u64,
    ];
    put_words(text, b"heap", &heap)?;
    put(text, b"\n")?;
    let threads = [config.mutators() as u64, config.helpers() as u64];
    put_words(text, b"threads", &threads)?;
    put(text, b"\n")
}

// Adds an item with a space before it.
fn put_item(text: &mut Vec<u8>, item: Item) -> Result<(), NoMemory> {
    put(text, b" ")?;
    match item {
        Item::Steps { number, count } => {
            put_number(text, (number as u64).saturating_add(1))?;
            put(text, b":")?;
            put_number(text, count)
        }
        Item::Until { number, place } => {
            put_number(text, (number as u64).saturating_add(1))?;
            put(text, b"@")?;
            put(text, &place.code())
        }
        Item::Replies { number, count } => {
            put_number(text, (number as u64).saturating_add(1))?;
            put(text, b"=")?;
            put_number(text, count)
        }
    }
}

/// The text of a trace of a version: the head, the lines of the threads one thread after the other, and all items on one line.
pub fn spelled(
    alloc: Global,
    version: u32,
    config: Config,
    scripts: &[Script],
    items: &[Item],
) -> Result<Vec<u8>, NoMemory> {
    let mut text = Vec::new(alloc);
    put_head(&mut text, version, &config)?;
    for thread in 0..scripts.len() {
        for command in scripts[thread].list() {
            put_number(&mut text, (thread as u64).saturating_add(1))?;
            put(&mut text, b" ")?;
            put_command(&mut text, *command)?;
            put(&mut text, b"\n")?;
        }
    }
    if !items.is_empty() {
        put(&mut text, b"!")?;
        for item in items {
            put_item(&mut text, *item)?;
        }
        put(&mut text, b"\n")?;
    }
    Ok(text)
}
