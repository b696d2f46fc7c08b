ghost use Rattle.std.specs.Prelude.{ℕ, ◌-◌, ◌<◌, ◌≤◌, ◌∷◌, length};
ghost use Rattle.std.specs.List.{flat_map};
ghost use Rattle.std.specs.Fmt.{decimal};
ghost use Rattle.shen_graph.specs.Work.{HasScript, replies_of};
ghost use Rattle.shen_graph.specs.GraphText.{row_of, root_of, pin_of};
ghost use Rattle.shen_base.specs.Sending.{Puts, Writes, outlet, stage};
ghost use Rattle.trace_reading.specs.Spelling.{space};
ghost use Rattle.trace_text.specs.Answer.{name_word, reference_word, reply_word, reply_line, object_line, roots_line, root_spellings, pins_line, pin_spellings, pins_text, thread_numbers, spelled_answer};

use shen_base::{Block, Sink, WriteFault};
use shen_graph::{Command, GraphText, Name, Reply, Work};

// The number of roots of a thread.
const ROOTS: usize = Command::ROOTS as usize;

// The number of pin slots of a thread.
const SLOTS: usize = Command::SLOTS as usize;

/// An answer: what the commands of each thread were answered, and the graph at the end. `replies` is to have the script of
/// each thread of `graph`.
#[derive(Drop)]
pub struct Answer {
    /// The version of the trace that is answered. From version 2 on the answer says what is pinned.
    pub version: u32,
    /// The replies of thread t stand at number t − 1.
    pub replies: Work,
    /// The objects, in the order in which they are to be written, and the roots of each thread.
    pub graph: GraphText,
}

/// Writes the answer to the sink. It takes no memory, and calls the sink at most once per byte. After `WriteFault` a front
/// of the answer was written.
pub fn write_answer<K: Sink>(sink: &mut K, answer: &Answer) -> Result<(), WriteFault>
    requires { (mutator : ℕ) → mutator < length answer.now.graph.roots → HasScript answer.now.replies mutator }
    ensures { Writes result (outlet (K.written sink.old) (K.faults sink.old) (K.calls sink.old))
        (outlet (K.written sink.new) (K.faults sink.new) (K.calls sink.new)) (spelled_answer answer.now) }
{
    let mut block = Block::new();
    put_replies(&mut block, sink, &answer.replies, answer.graph.mutators());
    block.put(sink, b"graph\n");
    put_objects(&mut block, sink, &answer.graph);
    put_roots(&mut block, sink, &answer.graph);
    put_pins(&mut block, sink, answer.version, &answer.graph);
    block.finish(sink)
}

// Puts the replies of threads 1 to `mutators`, which are at most 8.
fn put_replies<K: Sink>(block: &mut Block, sink: &mut K, work: &Work, mutators: usize)
    requires { (mutator : ℕ) → mutator < mutators → HasScript work.now mutator }
    ensures put { Puts (stage (K.written sink.old) (K.faults sink.old) (K.calls sink.old) block.old)
        (stage (K.written sink.new) (K.faults sink.new) (K.calls sink.new) block.new)
        (flat_map (λ thread. flat_map (reply_line thread) (replies_of work.now (thread - 1))) (thread_numbers mutators)) }
    ensures few { mutators ≤ 8 }
{
    for mutator in 0..mutators {
        put_replies_of(
            block,
            sink,
            mutator as u64 + 1,
            work.replies(mutator).list(),
        );
    }
}

// Puts the replies of a thread.
fn put_replies_of<K: Sink>(block: &mut Block, sink: &mut K, thread: u64, replies: &[Reply])
    ensures { Puts (stage (K.written sink.old) (K.faults sink.old) (K.calls sink.old) block.old)
        (stage (K.written sink.new) (K.faults sink.new) (K.calls sink.new) block.new)
        (flat_map (reply_line thread) replies.now) }
{
    for reply in replies {
        put_reply(block, sink, thread, *reply);
    }
}

// Puts the line of a reply.
fn put_reply<K: Sink>(block: &mut Block, sink: &mut K, thread: u64, reply: Reply)
    ensures { Puts (stage (K.written sink.old) (K.faults sink.old) (K.calls sink.old) block.old)
        (stage (K.written sink.new) (K.faults sink.new) (K.calls sink.new) block.new)
        (reply_line thread reply) }
{
    block.put_number(sink, thread);
    block.put(sink, b" ");
    put_reply_word(block, sink, reply);
    block.put(sink, b"\n");
}

pub(crate) fn put_reply_word<K: Sink>(block: &mut Block, sink: &mut K, reply: Reply)
    ensures { Puts (stage (K.written sink.old) (K.faults sink.old) (K.calls sink.old) block.old)
        (stage (K.written sink.new) (K.faults sink.new) (K.calls sink.new) block.new)
        (reply_word reply) }
{
    match reply {
        Reply::Ref(name) => put_name(block, sink, name),
        Reply::Null => block.put(sink, b"-"),
        Reply::Ok => block.put(sink, b"ok"),
        Reply::Yes => block.put(sink, b"yes"),
        Reply::No => block.put(sink, b"no"),
        Reply::Number(value) => block.put_number(sink, value),
        Reply::Bad => block.put(sink, b"bad"),
        Reply::Full => block.put(sink, b"full"),
        Reply::At(place) => {
            block.put(sink, b"@");
            block.put_number(sink, place);
        }
    }
}

fn put_name<K: Sink>(block: &mut Block, sink: &mut K, name: Name)
    ensures { Puts (stage (K.written sink.old) (K.faults sink.old) (K.calls sink.old) block.old)
        (stage (K.written sink.new) (K.faults sink.new) (K.calls sink.new) block.new)
        (name_word name) }
{
    block.put_number(sink, name.thread as u64);
    block.put(sink, b".");
    block.put_number(sink, name.count as u64);
}

// Puts a reference after a space.
fn put_reference<K: Sink>(block: &mut Block, sink: &mut K, reference: Option<Name>)
    ensures { Puts (stage (K.written sink.old) (K.faults sink.old) (K.calls sink.old) block.old)
        (stage (K.written sink.new) (K.faults sink.new) (K.calls sink.new) block.new)
        (space ∷ reference_word reference) }
{
    match reference {
        Some(name) => {
            block.put(sink, b" ");
            put_name(block, sink, name);
        }
        None => block.put(sink, b" -"),
    }
}

/// Puts the line of each object: its name, its references, a stroke, and its numbers.
pub fn put_objects<K: Sink>(block: &mut Block, sink: &mut K, graph: &GraphText)
    ensures { Puts (stage (K.written sink.old) (K.faults sink.old) (K.calls sink.old) block.old)
        (stage (K.written sink.new) (K.faults sink.new) (K.calls sink.new) block.new)
        (flat_map object_line graph.now.rows) }
{
    for row in 0..graph.rows() {
        put_object(block, sink, graph, row);
    }
}

// Puts the line of the object in a row.
fn put_object<K: Sink>(block: &mut Block, sink: &mut K, graph: &GraphText, row: usize)
    requires { row < length graph.now.rows }
    ensures { Puts (stage (K.written sink.old) (K.faults sink.old) (K.calls sink.old) block.old)
        (stage (K.written sink.new) (K.faults sink.new) (K.calls sink.new) block.new)
        (object_line (row_of graph.now row)) }
{
    block.put(sink, b"object ");
    put_name(block, sink, graph.name_at(row));
    put_references(block, sink, graph, row);
    block.put(sink, b" /");
    put_numbers(block, sink, graph, row);
    block.put(sink, b"\n");
}

// Puts the references of the object in a row, each after a space.
fn put_references<K: Sink>(block: &mut Block, sink: &mut K, graph: &GraphText, row: usize)
    requires { row < length graph.now.rows }
    ensures { Puts (stage (K.written sink.old) (K.faults sink.old) (K.calls sink.old) block.old)
        (stage (K.written sink.new) (K.faults sink.new) (K.calls sink.new) block.new)
        (flat_map (λ reference. space ∷ reference_word reference) (row_of graph.now row).refs) }
{
    for index in 0..graph.refs_at(row) {
        put_reference(block, sink, graph.reference_at(row, index));
    }
}

// Puts the numbers of the object in a row, each after a space.
fn put_numbers<K: Sink>(block: &mut Block, sink: &mut K, graph: &GraphText, row: usize)
    requires { row < length graph.now.rows }
    ensures { Puts (stage (K.written sink.old) (K.faults sink.old) (K.calls sink.old) block.old)
        (stage (K.written sink.new) (K.faults sink.new) (K.calls sink.new) block.new)
        (flat_map (λ number. space ∷ decimal number) (row_of graph.now row).nums) }
{
    for index in 0..graph.nums_at(row) {
        block.put(sink, b" ");
        block.put_number(sink, graph.number_at(row, index));
    }
}

/// Puts the line of the roots of each thread.
pub fn put_roots<K: Sink>(block: &mut Block, sink: &mut K, graph: &GraphText)
    requires { length graph.now.roots ≤ 8 }
    ensures { Puts (stage (K.written sink.old) (K.faults sink.old) (K.calls sink.old) block.old)
        (stage (K.written sink.new) (K.faults sink.new) (K.calls sink.new) block.new)
        (flat_map (λ thread. roots_line thread (root_of graph.now thread)) (thread_numbers (length graph.now.roots))) }
{
    for mutator in 0..graph.mutators() {
        put_roots_of(block, sink, graph, mutator as u32 + 1);
    }
}

// Puts the line of the roots of a thread.
fn put_roots_of<K: Sink>(block: &mut Block, sink: &mut K, graph: &GraphText, thread: u32)
    requires thread { (1 ≤ thread) × (thread ≤ length graph.now.roots) }
    ensures { Puts (stage (K.written sink.old) (K.faults sink.old) (K.calls sink.old) block.old)
        (stage (K.written sink.new) (K.faults sink.new) (K.calls sink.new) block.new)
        (roots_line thread (root_of graph.now thread)) }
{
    block.put(sink, b"roots ");
    block.put_number(sink, thread as u64);
    put_root_words(block, sink, graph, thread);
    block.put(sink, b"\n");
}

// Puts the roots of a thread, each after a space.
fn put_root_words<K: Sink>(block: &mut Block, sink: &mut K, graph: &GraphText, thread: u32)
    requires thread { (1 ≤ thread) × (thread ≤ length graph.now.roots) }
    ensures { Puts (stage (K.written sink.old) (K.faults sink.old) (K.calls sink.old) block.old)
        (stage (K.written sink.new) (K.faults sink.new) (K.calls sink.new) block.new)
        (flat_map (λ word. space ∷ word) (root_spellings (root_of graph.now thread))) }
{
    for index in 0..ROOTS {
        put_reference(block, sink, graph.root_at(thread, index));
    }
}

// Puts the line of the pin slots of each thread, in a version that has them.
fn put_pins<K: Sink>(block: &mut Block, sink: &mut K, version: u32, graph: &GraphText)
    requires { length graph.now.roots ≤ 8 }
    ensures { Puts (stage (K.written sink.old) (K.faults sink.old) (K.calls sink.old) block.old)
        (stage (K.written sink.new) (K.faults sink.new) (K.calls sink.new) block.new)
        (pins_text version (length graph.now.roots) (pin_of graph.now)) }
{
    if version >= 2 {
        put_all_pins(block, sink, graph);
    }
}

// Puts the line of the pin slots of each thread.
fn put_all_pins<K: Sink>(block: &mut Block, sink: &mut K, graph: &GraphText)
    requires { length graph.now.roots ≤ 8 }
    ensures { Puts (stage (K.written sink.old) (K.faults sink.old) (K.calls sink.old) block.old)
        (stage (K.written sink.new) (K.faults sink.new) (K.calls sink.new) block.new)
        (flat_map (λ thread. pins_line thread (pin_of graph.now thread)) (thread_numbers (length graph.now.roots))) }
{
    for mutator in 0..graph.mutators() {
        put_pins_of(block, sink, graph, mutator as u32 + 1);
    }
}

// Puts the line of the pin slots of a thread.
fn put_pins_of<K: Sink>(block: &mut Block, sink: &mut K, graph: &GraphText, thread: u32)
    requires thread { (1 ≤ thread) × (thread ≤ length graph.now.roots) }
    ensures { Puts (stage (K.written sink.old) (K.faults sink.old) (K.calls sink.old) block.old)
        (stage (K.written sink.new) (K.faults sink.new) (K.calls sink.new) block.new)
        (pins_line thread (pin_of graph.now thread)) }
{
    block.put(sink, b"pins ");
    block.put_number(sink, thread as u64);
    put_pin_words(block, sink, graph, thread);
    block.put(sink, b"\n");
}

// Puts the pin slots of a thread, each after a space.
fn put_pin_words<K: Sink>(block: &mut Block, sink: &mut K, graph: &GraphText, thread: u32)
    requires thread { (1 ≤ thread) × (thread ≤ length graph.now.roots) }
    ensures { Puts (stage (K.written sink.old) (K.faults sink.old) (K.calls sink.old) block.old)
        (stage (K.written sink.new) (K.faults sink.new) (K.calls sink.new) block.new)
        (flat_map (λ word. space ∷ word) (pin_spellings (pin_of graph.now thread))) }
{
    for slot in 0..SLOTS {
        put_reference(block, sink, graph.pin_at(thread, slot as u32));
    }
}
