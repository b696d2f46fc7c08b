//! All the bytes of a source.
ghost use Rattle.std.specs.Prelude.{◌≡◌, ◌≢◌, ℕ, ◌+◌, ◌<◌, ◌≤◌, List, Option, length, vec_len, IfOk, OnOk, IfErr, OnErr, Err};
ghost use Rattle.std.specs.Io.KnownBytes.{Consumes, IsAtEnd};
ghost use Rattle.shen_base.specs.Count.{Rose, raised};
ghost use Rattle.trace_reading.specs.Grammar.{most_bytes, Came};
ghost use Rattle.trace_reading.specs.declared.why.Why.{Why};
ghost use Rattle.trace_reading.specs.Calls.{HasFewCalls};
ghost use Rattle.trace_reading.specs.Faults.{IsReadingFault};

use crate::fault::TraceFault;
use shen_base::Source;
use std::alloc::Global;

/// The most bytes of a trace.
const MOST_BYTES: usize = 16_777_216;

/// The bytes that are asked for in one call.
const BLOCK: usize = 65_536;

/// So many bytes to read into.
fn room_for(alloc: Global, bytes: usize) -> Result<Vec<u8>, TraceFault>
    ensures size { IfOk result (λ room. vec_len room ≡ bytes) }
    ensures err { IfErr result (λ fault. fault ≡ TraceFault.NoMemory) }
{
    match vec![in alloc; 0; bytes] {
        Ok(room) => Ok(room),
        Err(_) => Err(TraceFault::NoMemory),
    }
}

/// One reading call: adds the next bytes at the end, and returns how many. None is the end of the source.
fn read_piece<S: Source>(
    source: &mut S,
    piece: &mut [u8],
    bytes: &mut Vec<u8>,
) -> Result<usize, TraceFault>
    ensures taken { OnOk result ((first : Option (List ℕ)) →
        Consumes first (S.left source.old) bytes.old.items → Consumes first (S.left source.new) bytes.new.items) }
    ensures count { IfOk result (λ count. (count ≤ length piece.old) × (vec_len bytes.new ≡ vec_len bytes.old + count)) }
    ensures at_end { IfOk result (λ count. count ≡ 0 → 0 < length piece.old → IsAtEnd (S.left source.new)) }
    ensures fault { IfErr result IsReadingFault }
    ensures read_fault { result ≡ Err TraceFault.ReadFault → Rose (S.faults source.old) (S.faults source.new) }
    ensures faults_never_fall { S.faults source.old ≤ S.faults source.new }
    ensures one_call { S.calls source.new ≡ raised (S.calls source.old) }

    // What was taken, also where there was no memory to keep it.
    ensures took { OnErr result ((first : Option (List ℕ)) → Consumes first (S.left source.old) bytes.old.items
        → (all : List ℕ) × Consumes first (S.left source.new) all × (length bytes.old.items ≤ length all) × (length all ≤ length bytes.old.items + length piece.old)) }
{
    let count = match source.read(piece) {
        Ok(count) => count,
        Err(_) => return Err(TraceFault::ReadFault),
    };
    match bytes.extend_from_slice(&piece[..count]) {
        Ok(()) => Ok(count),
        Err(_) => Err(TraceFault::NoMemory),
    }
}

/// Reads to the end of the source, or until one byte more came than a trace may have. Each call but the last gives at
/// least one byte.
pub fn all_bytes<S: Source>(alloc: Global, source: &mut S) -> Result<Vec<u8>, TraceFault>
    ensures ok { IfOk result (λ bytes. Came (S.left source.old) (S.left source.new) bytes.items × (length bytes.items ≤ most_bytes)) }
    ensures too_long { (byte_count : ℕ) → result ≡ Err (TraceFault.TooLong byte_count) → (byte_count ≡ most_bytes + 1)
        × ((bytes : List ℕ) × Consumes (S.left source.old) (S.left source.new) bytes × (length bytes ≡ most_bytes + 1)) }
    ensures read_fault { result ≡ Err TraceFault.ReadFault → Rose (S.faults source.old) (S.faults source.new) }
    ensures no_bad_line { (line_number : ℕ) (why : Why) → result ≢ Err (TraceFault.BadLine line_number why) }
    ensures faults_never_fall { S.faults source.old ≤ S.faults source.new }
    ensures few_calls { HasFewCalls (S.left source.old) (S.left source.new) (S.calls source.old) (S.calls source.new) }
{
    let mut block = room_for(alloc, BLOCK)?;
    let mut bytes = Vec::new(alloc);
    'pieces: while bytes.len() <= MOST_BYTES {
        let room = block.len().min(MOST_BYTES + 1 - bytes.len());
        let count = read_piece(source, &mut block[..room], &mut bytes)?;
        if count == 0 {
            return Ok(bytes);
        }
    }
    Err(TraceFault::TooLong {
        bytes: MOST_BYTES as u64 + 1,
    })
}
