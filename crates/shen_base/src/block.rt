ghost use Rattle.std.specs.Prelude.{◌≡◌, ℕ, ◌<◌, ◌≤◌, true, false, List, [], ◌++◌, length, take};
ghost use Rattle.std.specs.Fmt.{decimal};
ghost use Rattle.shen_base.specs.Sending.{HasTaken, Outlet, Puts, Writes, outlet, stage};

use crate::Sink;
use crate::number::{spell, spell_wide};
use crate::send::{WriteFault, write_all};
use std::marker::Model;

// The most bytes that a block holds.
const ROOM: usize = 4096;

/// A block of text before a sink. What is put goes into the block, and a full block goes to the sink. After the sink's
/// first fault all that is put is ignored, and the sink is not called any more; `finish` tells.
///
/// Contracts see a block as the bytes that are not sent yet, and whether there was a fault. All calls of one block are to
/// be given the same sink.
#[derive(Drop)]
pub struct Block {
    bytes: [u8; 4096],
    used: usize,
    failed: bool,
}

impl Model for Block {
    ghost use Rattle.std.specs.Prelude.{◌≡◌, ◌≤◌, List, length, take};
    ghost use Rattle.shen_base.specs.Sending.{Held};

    ghost Value = { Held };

    ghost view = { λ block. record { unsent = take block.used block.bytes; failed = block.failed } };

    ghost invariant = { λ block. (block.used ≤ 4096) × (length block.bytes ≡ 4096) };
}

impl Block {
    /// An empty block.
    pub fn new() -> Block
        ensures { result ≡ record { unsent = []; failed = false } }
    {
        Block {
            bytes: [0; 4096],
            used: 0,
            failed: false,
        }
    }

    // Sends what the block holds.
    fn send<K: Sink>(&mut self, sink: &mut K)
        ensures sent { Puts (stage (K.written sink.old) (K.faults sink.old) (K.calls sink.old) self.old)
            (stage (K.written sink.new) (K.faults sink.new) (K.calls sink.new) self.new) [] }
        ensures emptied { self.new.unsent ≡ [] }
        ensures faults_never_fall { K.faults sink.old ≤ K.faults sink.new }
        ensures stopped { self.old.failed ≡ true → (self.new.failed ≡ true) × (sink.new ≡ sink.old) }
    {
        if !self.failed {
            let sent = write_all(sink, &self.bytes[..self.used]);
            self.failed = sent.is_err();
        }
        self.used = 0;
    }

    // Sends what the block holds if there is no room for a byte more.
    fn make_room<K: Sink>(&mut self, sink: &mut K)
        ensures sent { Puts (stage (K.written sink.old) (K.faults sink.old) (K.calls sink.old) self.old)
            (stage (K.written sink.new) (K.faults sink.new) (K.calls sink.new) self.new) [] }
        ensures room { length self.new.unsent < 4096 }
    {
        if self.used == ROOM {
            self.send(sink);
        }
    }

    // Takes as much of the front of `piece` as there is room for, and returns how many bytes.
    fn keep(&mut self, piece: &[u8]) -> usize
        requires { length self.old.unsent < 4096 }
        ensures within { result ≤ length piece.now }
        ensures some { 0 < length piece.now → 0 < result }
        ensures kept { self.new ≡ record self.old { unsent = self.old.unsent ++ take result piece.now } }
    {
        let count = piece.len().min(ROOM - self.used);
        let end = self.used + count;
        self.bytes[self.used..end].copy_from_slice(&piece[..count]);
        self.used = end;
        count
    }

    /// Puts a piece of text behind all that was put before.
    pub fn put<K: Sink>(&mut self, sink: &mut K, piece: &[u8])
        ensures put { Puts (stage (K.written sink.old) (K.faults sink.old) (K.calls sink.old) self.old)
            (stage (K.written sink.new) (K.faults sink.new) (K.calls sink.new) self.new) piece.now }
        ensures stopped { self.old.failed ≡ true → (self.new ≡ self.old) × (sink.new ≡ sink.old) }
    {
        let mut rest = piece;
        while !rest.is_empty() && !self.failed {
            self.make_room(sink);
            let count = self.keep(rest);
            rest = &rest[count..];
        }
    }

    /// Puts the decimal digits of a number behind all that was put before.
    pub fn put_number<K: Sink>(&mut self, sink: &mut K, number: u64)
        ensures put { Puts (stage (K.written sink.old) (K.faults sink.old) (K.calls sink.old) self.old)
            (stage (K.written sink.new) (K.faults sink.new) (K.calls sink.new) self.new) (decimal number) }
        ensures stopped { self.old.failed ≡ true → (self.new ≡ self.old) × (sink.new ≡ sink.old) }
    {
        let mut digits = [0; 20];
        let from = spell(number, &mut digits);
        self.put(sink, &digits[from..]);
    }

    /// Puts the decimal digits of a number of 128 bits.
    pub fn put_wide<K: Sink>(&mut self, sink: &mut K, number: u128)
        ensures put { Puts (stage (K.written sink.old) (K.faults sink.old) (K.calls sink.old) self.old)
            (stage (K.written sink.new) (K.faults sink.new) (K.calls sink.new) self.new) (decimal number) }
        ensures stopped { self.old.failed ≡ true → (self.new ≡ self.old) × (sink.new ≡ sink.old) }
    {
        let mut digits = [0; 39];
        let from = spell_wide(number, &mut digits);
        self.put(sink, &digits[from..]);
    }

    /// Sends what the block holds, and tells whether all that was put was written. After `WriteFault` a front of it was
    /// written.
    pub fn finish<K: Sink>(self, sink: &mut K) -> Result<(), WriteFault>
        ensures ended { (first : Outlet) (text : List ℕ) →
            HasTaken (stage (K.written sink.old) (K.faults sink.old) (K.calls sink.old) self) first text →
            Writes result first (outlet (K.written sink.new) (K.faults sink.new) (K.calls sink.new)) text }
        ensures stopped { self.failed ≡ true → sink.new ≡ sink.old }
    {
        let mut block = self;
        block.send(sink);
        if block.failed {
            Err(WriteFault)
        } else {
            Ok(())
        }
    }
}
