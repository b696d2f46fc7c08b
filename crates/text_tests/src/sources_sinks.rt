//! What sources and sinks answer call by call, also where the reader or the writer behind them fails.
use shen_base::{Failed, InSource, MemorySink, MemorySource, OutSink, PlainSource, Sink, Source};
use std::alloc::{AllocError, Global};
use std::io;
use std::io::{Read, Write};
use std::test::Fail;

const TEXT: &[u8; 20] = b"abcdefghijklmnopqrst";

// Whether calls that read at room for 10 answer so, None for Failed, and give so many bytes of the text in all.
fn reads<S: Source>(source: &mut S, text: &[u8], wanted: &[Option<usize>], given: usize) -> bool {
    let mut left = text;
    let mut is_wanted = true;
    for want in wanted {
        let mut buf = [0u8; 10];
        let answer = source.read(&mut buf).ok();
        let count = answer.unwrap_or(0);
        is_wanted &= answer == *want && left.get(..count) == buf.get(..count);
        left = left.get(count..).unwrap_or(&[]);
    }
    is_wanted && text.get(given..) == Some(left)
}

// Whether calls that write the rest of the text answer so, None for Failed.
fn writes<K: Sink>(sink: &mut K, text: &[u8], wanted: &[Option<usize>]) -> bool {
    let mut rest = text;
    let mut is_wanted = true;
    for want in wanted {
        let answer = sink.write(rest).ok();
        is_wanted &= answer == *want;
        rest = rest.get(answer.unwrap_or(0)..).unwrap_or(&[]);
    }
    is_wanted
}

// A source of this text that gives so many bytes at a time, and whose call of this number fails.
fn source(
    alloc: Global,
    text: &[u8],
    piece: usize,
    failing: u64,
) -> Result<MemorySource, AllocError> {
    let failing = vec![in alloc; failing]?;
    Ok(MemorySource::new(text.to_vec(alloc)?, piece.max(1), failing))
}

// A sink that has this room and takes so many bytes at a time, and whose call of this number fails.
pub fn sink(
    alloc: Global,
    room: usize,
    piece: usize,
    failing: u64,
) -> Result<MemorySink, AllocError> {
    match MemorySink::with_room(alloc, room, piece.max(1), vec![in alloc; failing]?) {
        Ok(sink) => Ok(sink),
        Err(_) => Err(AllocError),
    }
}

// The size of a piece, the call that fails, what five calls answer, and how many bytes they give.
const READS: [(usize, u64, [Option<usize>; 5], usize); 4] = [
    (1, 3, [Some(1), Some(1), None, Some(1), Some(1)], 4),
    (7, 1, [None, Some(7), Some(7), Some(6), Some(0)], 20),
    (8, 2, [Some(8), None, Some(8), Some(4), Some(0)], 20),
    (99, 5, [Some(10), Some(10), Some(0), Some(0), None], 20),
];

#[test]
fn a_plain_source_gives_all_that_there_is_room_for(rt: HostRuntime) -> Result<(), Fail> {
    let mut plain = PlainSource::new(TEXT.to_vec(rt.alloc())?);
    assert!(rt; reads(&mut plain, TEXT, &[Some(10), Some(10), Some(0)], 20));
    Ok(())
}

#[test]
fn a_memory_source_gives_pieces_and_fails_where_it_is_told(rt: HostRuntime) -> Result<(), Fail> {
    for (piece, failing, wanted, given) in &READS {
        let mut source = source(rt.alloc(), TEXT, *piece, *failing)?;
        assert!(rt; reads(&mut source, TEXT, wanted, *given));
    }
    Ok(())
}

// The room, the size of a piece, the call that fails, what five calls answer, and how many bytes they take.
const WRITES: [(usize, usize, u64, [Option<usize>; 5], usize); 4] = [
    (20, 1, 3, [Some(1), Some(1), None, Some(1), Some(1)], 4),
    (20, 7, 1, [None, Some(7), Some(7), Some(6), Some(0)], 20),
    (18, 8, 2, [Some(8), None, Some(8), Some(2), None], 18),
    (0, 8, 9, [None, None, None, None, None], 0),
];

#[test]
fn a_memory_sink_takes_pieces_until_it_is_full(rt: HostRuntime) -> Result<(), Fail> {
    for (room, piece, failing, wanted, taken) in &WRITES {
        let mut sink = sink(rt.alloc(), *room, *piece, *failing)?;
        let is_wanted = writes(&mut sink, TEXT, wanted) && sink.write(&[]) == Ok(0);
        assert!(rt; is_wanted && TEXT.get(..*taken) == Some(sink.bytes()));
    }
    Ok(())
}

// A reader or a writer whose second call fails, and whose third takes and gives nothing.
#[derive(Drop)]
struct Halting<T> {
    inner: T,
    calls: u8,
}

impl<T> Halting<T> {
    fn turn(&mut self, len: usize) -> io::Result<usize> {
        self.calls = self.calls.saturating_add(1);
        match self.calls {
            2 => Err(io::Error::from(io::ErrorKind::WouldBlock)),
            3 => Ok(0),
            _ => Ok(len.min(8)),
        }
    }
}

impl<T: Read> Read for Halting<T> {
    fn read(&mut self, buf: &mut [u8]) -> io::Result<usize> {
        let len = self.turn(buf.len())?.min(buf.len());
        self.inner.read(&mut buf[..len])
    }
}

impl<T: Write> Write for Halting<T> {
    fn write(&mut self, piece: &[u8]) -> io::Result<usize> {
        let len = self.turn(piece.len())?.min(piece.len());
        self.inner.write(&piece[..len])
    }

    fn flush(&mut self) -> io::Result<()> {
        Ok(())
    }
}

#[test]
fn a_source_of_a_reader_hands_on_bytes(rt: HostRuntime) {
    let text: &[u8] = TEXT;
    let mut source = InSource::new(text);
    assert!(rt; reads(&mut source, TEXT, &[Some(10), Some(10), Some(0)], 20));
}

#[test]
fn a_source_of_a_reader_hands_on_faults(rt: HostRuntime) {
    let inner: &[u8] = TEXT;
    let mut source = InSource::new(Halting { inner, calls: 0 });
    let wanted = [Some(8), None, Some(0), Some(8), Some(4), Some(0)];
    assert!(rt; reads(&mut source, TEXT, &wanted, 20));
}

#[test]
fn a_sink_of_a_writer_hands_on_bytes_and_faults(rt: HostRuntime) {
    let mut written = Vec::new(rt.alloc());
    let mut sink = OutSink::new(Halting {
        inner: &mut written,
        calls: 0,
    });
    let wanted = [Some(8), None, None, Some(8), Some(4), Some(0)];
    let is_wanted = writes(&mut sink, TEXT, &wanted);
    drop(sink);
    assert!(rt; is_wanted && written.as_slice() == TEXT.as_slice());
}
