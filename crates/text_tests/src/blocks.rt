//! What a sink has of text that is put into blocks, whole and where a call of the sink fails.
use crate::sources_sinks::sink;
use shen_base::{Block, MemorySink};
use std::alloc::{AllocError, Global};
use std::test::Fail;

// The sink's call that fails, 0 for none; a number and its digits behind 9000 bytes; and how many bytes are written. The
// sink takes pieces of 1000 bytes: two blocks of 4096 bytes go in five calls each, the rest of 810 bytes in one.
const ROWS: [(u64, u64, &str, usize); 11] = [
    (0, 0, "0", 9001),
    (0, 9, "9", 9001),
    (0, 10, "10", 9002),
    (0, 909, "909", 9003),
    (0, u64::MAX, "18446744073709551615", 9020),
    (1, 12, "12", 0),
    (2, 12, "12", 1000),
    (5, 12, "12", 4000),
    (6, 12, "12", 4096),
    (10, 12, "12", 8096),
    (11, 12, "12", 8192),
];

// The text of 900 times ten letters and these digits.
fn text(alloc: Global, digits: &str) -> Result<Vec<u8>, AllocError> {
    let mut text = Vec::new(alloc);
    for _ in 0..900 {
        text.extend_from_slice(b"abcdefghij")?;
    }
    text.extend_from_slice(digits.as_bytes())?;
    Ok(text)
}

// Puts 900 times ten letters and this number into a block, and answers whether there was no fault.
fn put(sink: &mut MemorySink, number: u64) -> bool {
    let mut block = Block::new();
    for _ in 0..900 {
        block.put(sink, b"abcdefghij");
    }
    block.put_number(sink, number);
    block.finish(sink).is_ok()
}

#[test]
fn blocks_join_without_a_seam_and_a_fault_leaves_a_front(rt: HostRuntime) -> Result<(), Fail> {
    for (failing, number, digits, length) in &ROWS {
        let mut sink = sink(rt.alloc(), 10_000, 1000, *failing)?;
        let is_whole = put(&mut sink, *number);
        let text = text(rt.alloc(), digits)?;
        assert!(rt; is_whole == (*failing == 0) && text.get(..*length) == Some(sink.bytes()));
    }
    Ok(())
}
