//! Traces as text.
ghost use Rattle.std.specs.Prelude.{ℕ, List, ◌≡◌, ◌+◌, ◌≤◌, ◌++◌, length, take};
ghost use Rattle.std.specs.List.{flat_map, AllByRecursion};
ghost use Rattle.shen_graph.specs.declared.command.Command.{Command as Asked};
ghost use Rattle.heap_words.specs.declared.config.Config.{Config as Sizes};
ghost use Rattle.heap_words.specs.declared.schedule.Item.{Item as Turn};
ghost use Rattle.shen_base.specs.Sending.{Puts, Writes, outlet, stage};
ghost use Rattle.trace_reading.specs.Spelling.{numbers, command_word, numbers_of, line, titled, header, number_of, aim, spaced_item, schedule_line, IsItem};
ghost use Rattle.trace_reading.specs.Grammar.{Reads};
ghost use Rattle.trace_text.specs.Canonical.{lines_of, lines_from, turns_of, spelling_of, IsWritable};

use heap_words::{Config, Item};
use shen_base::{Block, Sink, WriteFault};
use shen_graph::{Command, Script};
use trace_reading::Trace;

/// Writes the trace to the sink, in its version: the three lines at its head, the lines of threads 1 to T one thread after the other, and all
/// items of its schedule on one line, where there are any. What is written is read as the very same trace. It takes no memory,
/// and calls the sink at most once per byte. After `WriteFault` a front of the text was written.
pub fn write_trace<K: Sink>(sink: &mut K, trace: &Trace) -> Result<(), WriteFault>
    requires { IsWritable trace.now.version trace.now.config trace.now.scripts trace.now.schedule }
    ensures written { Writes result (outlet (K.written sink.old) (K.faults sink.old) (K.calls sink.old))
        (outlet (K.written sink.new) (K.faults sink.new) (K.calls sink.new))
        (spelling_of trace.now.version trace.now.config trace.now.scripts trace.now.schedule) }
    ensures reads { Reads (spelling_of trace.now.version trace.now.config trace.now.scripts trace.now.schedule)
        trace.now.version trace.now.config trace.now.scripts trace.now.schedule }
{
    let mut block = Block::new();
    put_header(&mut block, sink, trace.version, &trace.config);
    put_scripts(&mut block, sink, trace.scripts.list());
    put_schedule(&mut block, sink, &trace.config, trace.schedule.list());
    block.finish(sink)
}

/// A law: a trace that was read can be written.
pub fn read_traces_can_be_written()
    ensures { (bytes : List ℕ) (version : ℕ) (config : Sizes) (scripts : List (List Asked)) (items : List Turn) → Reads bytes version config scripts items → IsWritable version config scripts items }
{}

// Puts the three lines at the head of a trace of a version.
fn put_header<K: Sink>(block: &mut Block, sink: &mut K, version: u32, config: &Config)
    ensures { Puts (stage (K.written sink.old) (K.faults sink.old) (K.calls sink.old) block.old)
        (stage (K.written sink.new) (K.faults sink.new) (K.calls sink.new) block.new)
        (header version config.now) }
{
    let heap = [
        config.regions() as u64,
        config.region_words() as u64,
        config.reserve() as u64,
    ];
    let threads = [config.mutators() as u64, config.helpers() as u64];
    put_title(block, sink, b"shen", &[version as u64]);
    put_title(block, sink, b"heap", &heap);
    put_title(block, sink, b"threads", &threads);
}

/// Puts a line of a title and numbers, each after a space.
pub fn put_title<K: Sink>(block: &mut Block, sink: &mut K, title: &[u8], values: &[u64])
    ensures { Puts (stage (K.written sink.old) (K.faults sink.old) (K.calls sink.old) block.old)
        (stage (K.written sink.new) (K.faults sink.new) (K.calls sink.new) block.new)
        (titled title.now values.now) }
{
    put_word(block, sink, title, values);
    block.put(sink, b"\n");
}

// Puts a word and numbers, each after a space.
fn put_word<K: Sink>(block: &mut Block, sink: &mut K, word: &[u8], values: &[u64])
    ensures { Puts (stage (K.written sink.old) (K.faults sink.old) (K.calls sink.old) block.old)
        (stage (K.written sink.new) (K.faults sink.new) (K.calls sink.new) block.new)
        (word.now ++ numbers values.now) }
{
    block.put(sink, word);
    for value in values {
        block.put(sink, b" ");
        block.put_number(sink, *value);
    }
}

// Puts the lines of all scripts, those of thread 1 first.
fn put_scripts<K: Sink>(block: &mut Block, sink: &mut K, scripts: &[Script])
    requires { length scripts.now ≤ 8 }
    ensures { Puts (stage (K.written sink.old) (K.faults sink.old) (K.calls sink.old) block.old)
        (stage (K.written sink.new) (K.faults sink.new) (K.calls sink.new) block.new)
        (flat_map line (lines_from 1 scripts.now)) }
{
    for mutator in 0..scripts.len() {
        put_script(block, sink, mutator as u64 + 1, scripts[mutator].list());
    }
}

// Puts the lines of a thread.
fn put_script<K: Sink>(block: &mut Block, sink: &mut K, thread: u64, script: &[Command])
    ensures { Puts (stage (K.written sink.old) (K.faults sink.old) (K.calls sink.old) block.old)
        (stage (K.written sink.new) (K.faults sink.new) (K.calls sink.new) block.new)
        (flat_map line (lines_of thread script.now)) }
{
    for command in script {
        put_line(block, sink, thread, *command);
    }
}

// Puts the line of a command.
fn put_line<K: Sink>(block: &mut Block, sink: &mut K, thread: u64, command: Command)
    ensures { Puts (stage (K.written sink.old) (K.faults sink.old) (K.calls sink.old) block.old)
        (stage (K.written sink.new) (K.faults sink.new) (K.calls sink.new) block.new)
        (line (record { thread = thread; command = command })) }
{
    block.put_number(sink, thread);
    block.put(sink, b" ");
    put_command(block, sink, command);
    block.put(sink, b"\n");
}

// Puts the word and the numbers of a command.
pub(crate) fn put_command<K: Sink>(block: &mut Block, sink: &mut K, command: Command)
    ensures { Puts (stage (K.written sink.old) (K.faults sink.old) (K.calls sink.old) block.old)
        (stage (K.written sink.new) (K.faults sink.new) (K.calls sink.new) block.new)
        (command_word command ++ numbers (numbers_of command)) }
{
    let (values, count) = numbers_of(command);
    put_word(block, sink, word_of(command), &values[..count]);
}

// The word of a command.
fn word_of(command: Command) -> &'static [u8]
    ensures { result.now ≡ command_word command }
{
    match command {
        Command::New { .. } => b"new",
        Command::Get { .. } => b"get",
        Command::Set { .. } => b"set",
        Command::Cas { .. } => b"cas",
        Command::Xchg { .. } => b"xchg",
        Command::Rd { .. } => b"rd",
        Command::Wr { .. } => b"wr",
        Command::Copy { .. } => b"copy",
        Command::Drop { .. } => b"drop",
        Command::Same { .. } => b"same",
        Command::Gc => b"gc",
        Command::Pin { .. } => b"pin",
        Command::Unpin { .. } => b"unpin",
    }
}

// The numbers of a command, which are the first so many.
fn numbers_of(command: Command) -> ([u64; 4], usize)
    ensures numbers { take result.1 result.0 ≡ numbers_of command }
    ensures few { result.1 ≤ 4 }
{
    match command {
        Command::New { dst, refs, nums } => ([dst as u64, refs as u64, nums as u64, 0], 3),
        Command::Get { dst, src, field } => ([dst as u64, src as u64, field as u64, 0], 3),
        Command::Set { obj, field, val } => ([obj as u64, field as u64, val as u64, 0], 3),
        Command::Cas {
            obj,
            field,
            expect,
            val,
        } => ([obj as u64, field as u64, expect as u64, val as u64], 4),
        Command::Xchg {
            dst,
            obj,
            field,
            val,
        } => ([dst as u64, obj as u64, field as u64, val as u64], 4),
        Command::Rd { obj, index } => ([obj as u64, index as u64, 0, 0], 2),
        Command::Wr { obj, index, value } => ([obj as u64, index as u64, value, 0], 3),
        Command::Copy { dst, src } => ([dst as u64, src as u64, 0, 0], 2),
        Command::Drop { dst } => ([dst as u64, 0, 0, 0], 1),
        Command::Same { a, b } => ([a as u64, b as u64, 0, 0], 2),
        Command::Gc => ([0, 0, 0, 0], 0),
        Command::Pin { slot, obj } => ([slot as u64, obj as u64, 0, 0], 2),
        Command::Unpin { slot } => ([slot as u64, 0, 0, 0], 1),
    }
}

// Puts the line of the schedule, where it has an item.
fn put_schedule<K: Sink>(block: &mut Block, sink: &mut K, config: &Config, items: &[Item])
    requires { AllByRecursion (IsItem config.now) items.now }
    ensures { Puts (stage (K.written sink.old) (K.faults sink.old) (K.calls sink.old) block.old)
        (stage (K.written sink.new) (K.faults sink.new) (K.calls sink.new) block.new)
        (flat_map schedule_line (turns_of items.now)) }
{
    if !items.is_empty() {
        block.put(sink, b"!");
        put_items(block, sink, config, items);
        block.put(sink, b"\n");
    }
}

// Puts items, each after a space.
fn put_items<K: Sink>(block: &mut Block, sink: &mut K, config: &Config, items: &[Item])
    requires { AllByRecursion (IsItem config.now) items.now }
    ensures { Puts (stage (K.written sink.old) (K.faults sink.old) (K.calls sink.old) block.old)
        (stage (K.written sink.new) (K.faults sink.new) (K.calls sink.new) block.new)
        (flat_map spaced_item items.now) }
{
    for item in items {
        put_item(block, sink, config, *item);
    }
}

// Puts an item after a space.
fn put_item<K: Sink>(block: &mut Block, sink: &mut K, config: &Config, item: Item)
    requires { IsItem config.now item }
    ensures { Puts (stage (K.written sink.old) (K.faults sink.old) (K.calls sink.old) block.old)
        (stage (K.written sink.new) (K.faults sink.new) (K.calls sink.new) block.new)
        (spaced_item item) }
{
    block.put(sink, b" ");
    block.put_number(sink, machine_of(config, item));
    put_aim(block, sink, item);
}

// The machine of an item, counted from 1.
fn machine_of(config: &Config, item: Item) -> u64
    requires { IsItem config.now item }
    ensures { result ≡ number_of item + 1 }
{
    match item {
        Item::Steps { number, .. } | Item::Until { number, .. } | Item::Replies { number, .. } => {
            number as u64 + 1
        }
    }
}

// Puts how far the machine of an item goes.
fn put_aim<K: Sink>(block: &mut Block, sink: &mut K, item: Item)
    ensures { Puts (stage (K.written sink.old) (K.faults sink.old) (K.calls sink.old) block.old)
        (stage (K.written sink.new) (K.faults sink.new) (K.calls sink.new) block.new)
        (aim item) }
{
    match item {
        Item::Steps { count, .. } => {
            block.put(sink, b":");
            block.put_number(sink, count);
        }
        Item::Until { place, .. } => {
            block.put(sink, b"@");
            block.put(sink, &place.code());
        }
        Item::Replies { count, .. } => {
            block.put(sink, b"=");
            block.put_number(sink, count);
        }
    }
}
