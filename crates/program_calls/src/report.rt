//! What is told of a search.
ghost use Rattle.std.specs.Prelude.{ℕ, List, [], ◌∷◌, ◌++◌};
ghost use Rattle.std.specs.Fmt.{decimal};
ghost use Rattle.shen_base.specs.Sending.{Puts, Writes, outlet, stage};
ghost use Rattle.trace_reading.specs.Spelling.{newline};
ghost use Rattle.program_calls.specs.FaultLines.{refusal_text};
ghost use Rattle.program_calls.specs.FindTellings.{line_of_verdict};
ghost use Rattle.find_play.specs.declared.fault.TestFault.TheVariants.{BadLine};

use find_play::{TestWhy, Verdict};
use find_search::Tally;
use shen_base::{Block, Sink, WriteFault};

// Puts a line of words, with a space behind them, and a number.
fn put_line<K: Sink>(block: &mut Block, sink: &mut K, words: &[u8], number: u64)
    ensures { Puts (stage (K.written sink.old) (K.faults sink.old) (K.calls sink.old) block.old)
        (stage (K.written sink.new) (K.faults sink.new) (K.calls sink.new) block.new) (words.now ++ (decimal number ++ newline ∷ [])) }
{
    block.put(sink, words);
    block.put_number(sink, number);
    block.put(sink, b"\n");
}

// Puts what was counted of schedules, each number on a line.
fn put_schedules<K: Sink>(block: &mut Block, sink: &mut K, tally: &Tally)
    ensures { (text : List ℕ) × Puts (stage (K.written sink.old) (K.faults sink.old) (K.calls sink.old) block.old)
        (stage (K.written sink.new) (K.faults sink.new) (K.calls sink.new) block.new) text }
{
    put_line(block, sink, b"schedules ", tally.schedules);
    put_line(block, sink, b"steps ", tally.steps);
    put_line(block, sink, b"whole ", tally.whole);
    put_line(block, sink, b"met ", tally.met);
    put_line(block, sink, b"cut ", tally.cut);
    put_line(block, sink, b"barred ", tally.barred);
    put_line(block, sink, b"unrun ", tally.unrun);
}

// Puts what was counted of runs, each number on a line.
fn put_runs<K: Sink>(block: &mut Block, sink: &mut K, tally: &Tally)
    ensures { (text : List ℕ) × Puts (stage (K.written sink.old) (K.faults sink.old) (K.calls sink.old) block.old)
        (stage (K.written sink.new) (K.faults sink.new) (K.calls sink.new) block.new) text }
{
    put_line(block, sink, b"histories ", tally.histories());
    put_line(block, sink, b"outcomes ", tally.outcomes());
    put_line(block, sink, b"holding ", tally.holding);
    put_line(block, sink, b"failing ", tally.failing);
    put_line(block, sink, b"stuck ", tally.stuck);
}

// Puts the line of a verdict, and before it the preemptions of the schedule that was found, if one was.
fn put_verdict<K: Sink>(block: &mut Block, sink: &mut K, verdict: Verdict, preemptions: u64)
    ensures { (front : List ℕ) × Puts (stage (K.written sink.old) (K.faults sink.old) (K.calls sink.old) block.old)
        (stage (K.written sink.new) (K.faults sink.new) (K.calls sink.new) block.new) (front ++ line_of_verdict verdict) }
{
    match verdict {
        Verdict::Holds => block.put(sink, b"holds\n"),
        Verdict::Fails(assertion) => {
            put_line(block, sink, b"preemptions ", preemptions);
            put_line(block, sink, b"fails assertion ", assertion);
        }
        Verdict::Stuck(thread) => {
            put_line(block, sink, b"preemptions ", preemptions);
            put_line(block, sink, b"stuck thread ", thread as u64);
        }
    }
}

/// Writes what was counted, each number on a line, and in the last line the verdict; before it stand the preemptions of the schedule
/// that was found, if one was.
pub fn write_report<K: Sink>(
    sink: &mut K,
    tally: &Tally,
    verdict: Verdict,
    preemptions: u64,
) -> Result<(), WriteFault>
    ensures { (counts : List ℕ) × Writes result (outlet (K.written sink.old) (K.faults sink.old) (K.calls sink.old))
        (outlet (K.written sink.new) (K.faults sink.new) (K.calls sink.new)) (counts ++ line_of_verdict verdict) }
{
    let mut block = Block::new();
    put_schedules(&mut block, sink, tally);
    put_runs(&mut block, sink, tally);
    put_verdict(&mut block, sink, verdict, preemptions);
    block.finish(sink)
}

/// Writes the line that says which line of a test is refused, counted from 1, and why.
pub fn write_bad_line<K: Sink>(sink: &mut K, line: u64, why: TestWhy) -> Result<(), WriteFault>
    ensures { Writes result (outlet (K.written sink.old) (K.faults sink.old) (K.calls sink.old))
        (outlet (K.written sink.new) (K.faults sink.new) (K.calls sink.new)) (refusal_text (BadLine line why)) }
{
    let mut block = Block::new();
    block.put(sink, b"bad line ");
    block.put_number(sink, line);
    block.put(sink, b": ");
    block.put(sink, why.text());
    block.put(sink, b"\n");
    block.finish(sink)
}
