//! Histories as text.
ghost use Rattle.std.specs.Prelude.{◌≡◌};
ghost use Rattle.std.specs.List.{flat_map};
ghost use Rattle.shen_graph.specs.Noting.{seen};
ghost use Rattle.shen_base.specs.Sending.{Puts, Writes, outlet, stage};
ghost use Rattle.trace_text.specs.History.{entry_line, history_text};

use crate::answer::put_reply_word;
use crate::trace::put_command;
use shen_base::{Block, Sink, WriteFault};
use shen_graph::{Entry, History};

/// Writes the history to the sink: the line `history`, and for each entry a line `t words : reply`, which has the thread, its
/// command as in a trace, and the reply. It takes no memory, and calls the sink at most once per byte. After `WriteFault` a
/// front of the text was written.
pub fn write_history<K: Sink>(sink: &mut K, history: &History) -> Result<(), WriteFault>
    ensures { Writes result (outlet (K.written sink.old) (K.faults sink.old) (K.calls sink.old))
        (outlet (K.written sink.new) (K.faults sink.new) (K.calls sink.new)) (history_text history.now.list) }
{
    let mut block = Block::new();
    block.put(sink, b"history\n");
    put_entries(&mut block, sink, history);
    block.finish(sink)
}

// Puts the lines of all entries.
fn put_entries<K: Sink>(block: &mut Block, sink: &mut K, history: &History)
    ensures { Puts (stage (K.written sink.old) (K.faults sink.old) (K.calls sink.old) block.old)
        (stage (K.written sink.new) (K.faults sink.new) (K.calls sink.new) block.new)
        (flat_map entry_line history.now.list) }
{
    for at in 0..history.len() {
        put_entry(block, sink, history.entry(at));
    }
}

// Puts the line of an entry.
fn put_entry<K: Sink>(block: &mut Block, sink: &mut K, entry: Entry)
    ensures { Puts (stage (K.written sink.old) (K.faults sink.old) (K.calls sink.old) block.old)
        (stage (K.written sink.new) (K.faults sink.new) (K.calls sink.new) block.new)
        (entry_line (seen entry)) }
{
    block.put_number(sink, entry.thread as u64);
    block.put(sink, b" ");
    put_command(block, sink, entry.command);
    block.put(sink, b" : ");
    put_reply_word(block, sink, entry.reply);
    block.put(sink, b"\n");
}
