//! The standard library's readers and writers as sources and sinks. What stands behind them, a file or a terminal,
//! is trusted to be what it says.
ghost use Rattle.std.specs.Prelude.{◌≡◌, ◌<◌, ◌≤◌, length, take, IfOk, OnOk, OnErr};
ghost use Rattle.std.specs.Io.KnownBytes.{Appends, Consumes, IsAtEnd, Keeps};
ghost use Rattle.shen_base.specs.Count.{Rose, raised};

use crate::Failed;
use crate::count::{count_fault, raise};
use crate::sink::Sink;
use crate::source::Source;
use std::io::{Read, Write};

/// A source over a reader of the standard library. Each of the reader's errors is one fault; no read is tried again.
#[derive(Drop)]
pub struct InSource<R: Read> {
    reader: R,
    // The errors and the calls so far, which stand still at `u64::MAX`.
    faults: u64,
    calls: u64,
}

impl<R: Read> InSource<R> {
    ghost use Rattle.shen_base.specs.Adapter.{reader_of, read_faults, read_calls};

    /// A source that reads from `reader`, and has counted no fault and no call.
    pub fn new(reader: R) -> InSource<R>
        ensures reader { reader_of result ≡ reader }
        ensures no_faults { read_faults result ≡ 0 }
        ensures no_calls { read_calls result ≡ 0 }
    {
        InSource {
            reader,
            faults: 0,
            calls: 0,
        }
    }
}

impl<R: Read> Source for InSource<R> {
    ghost use Rattle.shen_base.specs.Adapter.{reader_of, read_faults, read_calls};

    ghost left = { λ source. R.remaining (reader_of source) };

    ghost faults = { read_faults };

    ghost calls = { read_calls };

    fn read(&mut self, buf: &mut [u8]) -> Result<usize, Failed>
        ensures within { IfOk result (λ count. count ≤ length buf.new) }
        ensures next_bytes { IfOk result (λ count.
            Consumes (R.remaining (reader_of self.old)) (R.remaining (reader_of self.new)) (take count buf.new)) }
        ensures none_only_at_end { IfOk result (λ count. count ≡ 0 → 0 < length buf.new →
            IsAtEnd (R.remaining (reader_of self.new))) }
        ensures failed_takes_none { OnErr result
            (Keeps (R.remaining (reader_of self.old)) (R.remaining (reader_of self.new))) }
        ensures failed_only_by_fault { OnErr result (Rose (read_faults self.old) (read_faults self.new)) }
        ensures faults_never_fall { read_faults self.old ≤ read_faults self.new }
        ensures one_call { read_calls self.new ≡ raised (read_calls self.old) }

        // A fault is counted exactly at Failed.
        ensures ok_counts_none { OnOk result (read_faults self.new ≡ read_faults self.old) }
        ensures failed_counts_one { OnErr result (read_faults self.new ≡ raised (read_faults self.old)) }
    {
        raise(&mut self.calls);
        match self.reader.read(buf) {
            Ok(count) => Ok(count),
            Err(_) => Err(count_fault(&mut self.faults)),
        }
    }
}

/// A sink over a writer of the standard library. Each of the writer's errors is one fault, and so is a write that
/// takes nothing of a piece that is not empty; no write is tried again.
///
/// Nothing flushes the writer, so it should be one that keeps nothing back, as `Stdout` is.
#[derive(Drop)]
pub struct OutSink<W: Write> {
    writer: W,
    // The faults and the calls so far, which stand still at `u64::MAX`.
    faults: u64,
    calls: u64,
}

impl<W: Write> OutSink<W> {
    ghost use Rattle.shen_base.specs.Adapter.{writer_of, write_faults, write_calls};

    /// A sink that writes to `writer`, and has counted no fault and no call.
    pub fn new(writer: W) -> OutSink<W>
        ensures writer { writer_of result ≡ writer }
        ensures no_faults { write_faults result ≡ 0 }
        ensures no_calls { write_calls result ≡ 0 }
    {
        OutSink {
            writer,
            faults: 0,
            calls: 0,
        }
    }
}

impl<W: Write> Sink for OutSink<W> {
    ghost use Rattle.shen_base.specs.Adapter.{writer_of, write_faults, write_calls};

    ghost written = { λ sink. W.contents (writer_of sink) };

    ghost faults = { write_faults };

    ghost calls = { write_calls };

    fn write(&mut self, piece: &[u8]) -> Result<usize, Failed>
        ensures within { IfOk result (λ count. count ≤ length piece.now) }
        ensures appended { IfOk result (λ count.
            Appends (W.contents (writer_of self.old)) (W.contents (writer_of self.new)) (take count piece.now)) }
        ensures none_only_of_empty { IfOk result (λ count. count ≡ 0 → length piece.now ≡ 0) }
        ensures failed_writes_none { OnErr result
            (Keeps (W.contents (writer_of self.old)) (W.contents (writer_of self.new))) }
        ensures failed_only_by_fault { OnErr result (Rose (write_faults self.old) (write_faults self.new)) }
        ensures faults_never_fall { write_faults self.old ≤ write_faults self.new }
        ensures one_call { write_calls self.new ≡ raised (write_calls self.old) }

        // A fault is counted exactly at Failed.
        ensures ok_counts_none { OnOk result (write_faults self.new ≡ write_faults self.old) }
        ensures failed_counts_one { OnErr result (write_faults self.new ≡ raised (write_faults self.old)) }
    {
        raise(&mut self.calls);
        match self.writer.write(piece) {
            Ok(count) if count > 0 || piece.is_empty() => Ok(count),
            _ => Err(count_fault(&mut self.faults)),
        }
    }
}
