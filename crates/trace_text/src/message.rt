ghost use Rattle.std.specs.Prelude.{[], ◌∷◌, ◌++◌, codes};
ghost use Rattle.std.specs.Fmt.{decimal};
ghost use Rattle.shen_base.specs.Sending.{Puts, Writes, outlet, stage};
ghost use Rattle.trace_reading.specs.Spelling.{newline};
ghost use Rattle.trace_reading.specs.Why.{text_of as why_text};
ghost use Rattle.trace_text.specs.Message.{line_text, summary_text, queue_text};

use churn::Summary;
use shen_base::{Block, Sink, WriteFault, write_all};
use trace_reading::Why;

/// The one line that stands in the place of an answer, the verdict on one, or the lines of a churn or of a queue.
#[derive(Clone, Copy)]
pub enum Line {
    /// The words of the command line are outside their grammar: `bad words`.
    BadWords,
    /// This line of the trace, counted from 1, is the first that is refused, and why: `bad line N: why`.
    BadLine { line: u64, why: Why },
    /// More bytes came than a trace may have: `too long: more than 16777216 bytes`.
    TooLong,
    /// The objects of a dump, placed in the order of names, need more regions than there are: `heap too small`.
    HeapTooSmall,
    /// A machine still had work after so many steps: `unfinished after N steps`.
    Unfinished { steps: u64 },
    /// The source failed: `read fault`.
    ReadFault,
    /// Memory was refused: `out of memory`.
    NoMemory,
    /// What a run of the workload told: eight lines, `churn SEED COUNT`, `threads 3`, and then `commands`, `bad`, `full`,
    /// `objects`, `words` and `sum`, each with its number.
    Churn(Summary),
    /// What the takers of a queue got: `queue COUNT`, `items N` and `sum S`.
    Queue { count: u64, items: u64, sum: u128 },
    /// A history that somebody claims is right, and so is its answer: `yes`.
    Yes,
    /// The entry at this place, counted from 0, is the first that may not follow those before it: `no: entry K`.
    NoEntry { at: u64 },
    /// This thread, counted from 1, is the first with a command that the history lacks: `no: script T`.
    NoScript { thread: u32 },
    /// The history is right, and its answer is another text: `no: text`.
    NoText,
}

/// Writes the line to the sink. It takes no memory, and calls the sink at most once per byte. After `WriteFault` a front
/// of the line was written.
pub fn write_line<K: Sink>(sink: &mut K, line: &Line) -> Result<(), WriteFault>
    ensures { Writes result (outlet (K.written sink.old) (K.faults sink.old) (K.calls sink.old))
        (outlet (K.written sink.new) (K.faults sink.new) (K.calls sink.new)) (line_text line.now) }
{
    match line {
        Line::BadWords => write_all(sink, b"bad words\n"),
        Line::BadLine { line, why } => write_bad_line(sink, *line, *why),
        Line::TooLong => write_all(sink, b"too long: more than 16777216 bytes\n"),
        Line::HeapTooSmall => write_all(sink, b"heap too small\n"),
        Line::Unfinished { steps } => write_unfinished(sink, *steps),
        Line::ReadFault => write_all(sink, b"read fault\n"),
        Line::NoMemory => write_all(sink, b"out of memory\n"),
        Line::Churn(summary) => write_churn(sink, *summary),
        Line::Queue { count, items, sum } => write_queue(sink, *count, *items, *sum),
        Line::Yes => write_all(sink, b"yes\n"),
        Line::NoEntry { at } => write_told(sink, b"no: entry ", *at),
        Line::NoScript { thread } => write_told(sink, b"no: script ", *thread as u64),
        Line::NoText => write_all(sink, b"no: text\n"),
    }
}

// Writes the line that names a line of the trace.
fn write_bad_line<K: Sink>(sink: &mut K, line: u64, why: Why) -> Result<(), WriteFault>
    ensures { Writes result (outlet (K.written sink.old) (K.faults sink.old) (K.calls sink.old))
        (outlet (K.written sink.new) (K.faults sink.new) (K.calls sink.new)) (codes "bad line " ++ (decimal line ++ (codes ": " ++ (why_text why ++ newline ∷ [])))) }
{
    let mut block = Block::new();
    put_told(&mut block, sink, b"bad line ", line);
    block.put(sink, b": ");
    block.put(sink, why.text());
    block.put(sink, b"\n");
    block.finish(sink)
}

// Writes the line that names the steps.
fn write_unfinished<K: Sink>(sink: &mut K, steps: u64) -> Result<(), WriteFault>
    ensures { Writes result (outlet (K.written sink.old) (K.faults sink.old) (K.calls sink.old))
        (outlet (K.written sink.new) (K.faults sink.new) (K.calls sink.new)) (codes "unfinished after " ++ (decimal steps ++ codes " steps\n")) }
{
    let mut block = Block::new();
    put_told(&mut block, sink, b"unfinished after ", steps);
    block.put(sink, b" steps\n");
    block.finish(sink)
}

// Writes a line of a label and a number.
fn write_told<K: Sink>(sink: &mut K, label: &[u8], number: u64) -> Result<(), WriteFault>
    ensures { Writes result (outlet (K.written sink.old) (K.faults sink.old) (K.calls sink.old))
        (outlet (K.written sink.new) (K.faults sink.new) (K.calls sink.new)) (label.now ++ (decimal number ++ newline ∷ [])) }
{
    let mut block = Block::new();
    put_told(&mut block, sink, label, number);
    block.put(sink, b"\n");
    block.finish(sink)
}

// Writes the lines of a churn.
fn write_churn<K: Sink>(sink: &mut K, told: Summary) -> Result<(), WriteFault>
    ensures { Writes result (outlet (K.written sink.old) (K.faults sink.old) (K.calls sink.old))
        (outlet (K.written sink.new) (K.faults sink.new) (K.calls sink.new)) (summary_text told ++ newline ∷ []) }
{
    let mut block = Block::new();
    put_told(&mut block, sink, b"churn ", told.seed);
    put_told(&mut block, sink, b" ", told.count);
    put_told(&mut block, sink, b"\nthreads 3\ncommands ", told.commands);
    put_told(&mut block, sink, b"\nbad ", told.bad);
    put_told(&mut block, sink, b"\nfull ", told.full);
    put_told(&mut block, sink, b"\nobjects ", told.objects);
    put_told(&mut block, sink, b"\nwords ", told.words);
    put_told(&mut block, sink, b"\nsum ", told.sum);
    block.put(sink, b"\n");
    block.finish(sink)
}

// Writes the lines of a queue.
fn write_queue<K: Sink>(sink: &mut K, count: u64, items: u64, sum: u128) -> Result<(), WriteFault>
    ensures { Writes result (outlet (K.written sink.old) (K.faults sink.old) (K.calls sink.old))
        (outlet (K.written sink.new) (K.faults sink.new) (K.calls sink.new)) (queue_text count items sum ++ newline ∷ []) }
{
    let mut block = Block::new();
    put_told(&mut block, sink, b"queue ", count);
    put_told(&mut block, sink, b"\nitems ", items);
    block.put(sink, b"\nsum ");
    block.put_wide(sink, sum);
    block.put(sink, b"\n");
    block.finish(sink)
}

// Puts what a number is of, and the number.
fn put_told<K: Sink>(block: &mut Block, sink: &mut K, label: &[u8], number: u64)
    ensures { Puts (stage (K.written sink.old) (K.faults sink.old) (K.calls sink.old) block.old)
        (stage (K.written sink.new) (K.faults sink.new) (K.calls sink.new) block.new)
        (label.now ++ decimal number) }
{
    block.put(sink, label);
    block.put_number(sink, number);
}
