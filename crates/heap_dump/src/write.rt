ghost use Rattle.std.specs.Prelude.{codes};
ghost use Rattle.shen_base.specs.Sending.{Puts, Writes, outlet, stage};
ghost use Rattle.trace_reading.specs.Spelling.{titled};
ghost use Rattle.heap_dump.specs.Dumped.{dumped, IsDump};
ghost use Rattle.heap_dump.specs.DumpText.{sizes_head, dump_text};

use crate::dump::Dump;
use heap_words::Config;
use shen_base::{Block, Sink, WriteFault};
use trace_text::{put_objects, put_roots, put_title};

/// Writes the dump to the sink. It takes no memory, and calls the sink at most once per byte. After `WriteFault` a front of the
/// dump was written.
pub fn write_dump<K: Sink>(sink: &mut K, dump: &Dump) -> Result<(), WriteFault>
    requires { IsDump (dumped dump.now.config dump.now.counts dump.now.graph) }
    ensures { Writes result (outlet (K.written sink.old) (K.faults sink.old) (K.calls sink.old))
        (outlet (K.written sink.new) (K.faults sink.new) (K.calls sink.new))
        (dump_text (dumped dump.now.config dump.now.counts dump.now.graph)) }
{
    let mut block = Block::new();
    put_head(&mut block, sink, &dump.config);
    put_counts(&mut block, sink, dump.counts.list());
    put_objects(&mut block, sink, &dump.graph);
    put_roots(&mut block, sink, &dump.graph);
    block.finish(sink)
}

// Puts the lines of the version and of the configuration.
fn put_head<K: Sink>(block: &mut Block, sink: &mut K, config: &Config)
    ensures { Puts (stage (K.written sink.old) (K.faults sink.old) (K.calls sink.old) block.old)
        (stage (K.written sink.new) (K.faults sink.new) (K.calls sink.new) block.new)
        (sizes_head config.now) }
{
    let heap = [
        config.regions() as u64,
        config.region_words() as u64,
        config.reserve() as u64,
    ];
    let threads = [config.mutators() as u64, config.helpers() as u64];
    put_title(block, sink, b"dump", &[1]);
    put_title(block, sink, b"heap", &heap);
    put_title(block, sink, b"threads", &threads);
}

// Puts the line of the counts.
fn put_counts<K: Sink>(block: &mut Block, sink: &mut K, counts: &[u32])
    ensures { Puts (stage (K.written sink.old) (K.faults sink.old) (K.calls sink.old) block.old)
        (stage (K.written sink.new) (K.faults sink.new) (K.calls sink.new) block.new)
        (titled (codes "counts") counts.now) }
{
    block.put(sink, b"counts");
    for count in counts {
        block.put(sink, b" ");
        block.put_number(sink, *count as u64);
    }
    block.put(sink, b"\n");
}
