//! Sources and sinks in memory, which give and take small pieces and fail at calls that are named beforehand.
ghost use Rattle.std.specs.Prelude.{◌≡◌, ℕ, ◌+◌, ◌-◌, ◌<◌, ◌≤◌, ◌⊎◌, ◌↔◌, List, [], ◌++◌, Some, min, length, take, drop, vec_len, IfOk, IsOk, IsErr, OnErr};
ghost use Rattle.std.specs.Io.KnownBytes.{Appends, Consumes, IsAtEnd, Keeps};
ghost use Rattle.shen_base.specs.Count.{Rose, raised};
ghost use Rattle.shen_base.specs.Memory.{IsNextFailing, IsFullFor};

use crate::count::{count_fault, raise};
use crate::sink::Sink;
use crate::source::Source;
use crate::{Failed, NoMemory};
use std::alloc::Global;
use std::marker::Model;

// Bytes in memory of which some were given. Contracts see them as the list of the bytes left.
#[derive(Drop)]
struct Unread {
    bytes: Vec<u8>,
    // How many of the bytes were given.
    position: usize,
}

impl Model for Unread {
    ghost use Rattle.std.specs.Prelude.{ℕ, ◌≤◌, List, length, drop};

    ghost Value = { List ℕ };

    ghost view = { λ unread. drop unread.position unread.bytes.items };

    ghost invariant = { λ unread. unread.position ≤ length unread.bytes.items };
}

impl Unread {
    fn new(bytes: Vec<u8>) -> Unread
        ensures { result ≡ bytes.items }
    {
        Unread { bytes, position: 0 }
    }

    // Puts the next bytes at the front of `buf`, at most `most`, and returns how many.
    fn give(&mut self, most: usize, buf: &mut [u8]) -> usize
        ensures count { result ≡ min (min (length buf.old) most) (length self.old) }
        ensures buffer { buf.new ≡ take result self.old ++ drop result buf.old }
        ensures rest { self.new ≡ drop result self.old }
        ensures next_bytes { self.old ≡ take result buf.new ++ self.new }
    {
        let rest = &self.bytes[self.position..];
        let count = buf.len().min(most).min(rest.len());
        buf[..count].copy_from_slice(&rest[..count]);
        self.position += count;
        count
    }
}

/// A source over bytes in memory that never fails. Contracts see it as a `Stock`.
#[derive(Drop)]
pub struct PlainSource {
    unread: Unread,
    calls: u64,
}

impl Model for PlainSource {
    ghost use Rattle.shen_base.specs.Memory.{Stock};

    ghost Value = { Stock };

    ghost view = { λ source. record { unread = source.unread; calls = source.calls } };
}

impl PlainSource {
    /// A source that gives `bytes`, as many in a call as there is room for.
    pub fn new(bytes: Vec<u8>) -> PlainSource
        ensures { result ≡ record { unread = bytes.items; calls = 0 } }
    {
        PlainSource {
            unread: Unread::new(bytes),
            calls: 0,
        }
    }
}

impl Source for PlainSource {
    ghost left = { λ source. Some source.unread };

    ghost faults = { λ _. 0 };

    ghost calls = { λ source. source.calls };

    fn read(&mut self, buf: &mut [u8]) -> Result<usize, Failed>
        ensures within { IfOk result (λ count. count ≤ length buf.new) }
        ensures next_bytes { IfOk result (λ count.
            Consumes (Some self.old.unread) (Some self.new.unread) (take count buf.new)) }
        ensures none_only_at_end { IfOk result (λ count. count ≡ 0 → 0 < length buf.new →
            IsAtEnd (Some self.new.unread)) }
        ensures one_call { self.new.calls ≡ raised self.old.calls }

        // It never fails, and gives all that there is room for.
        ensures never_fails { IsOk result }
        ensures count { IfOk result (λ count. count ≡ min (length buf.old) (length self.old.unread)) }
        ensures buffer { IfOk result (λ count. buf.new ≡ take count self.old.unread ++ drop count buf.old) }
        ensures rest { IfOk result (λ count. self.new.unread ≡ drop count self.old.unread) }
    {
        raise(&mut self.calls);
        Ok(self.unread.give(buf.len(), buf))
    }
}

/// A source over bytes in memory that gives small pieces, and fails at the calls that are named beforehand. Contracts
/// see it as a `Supply`.
#[derive(Drop)]
pub struct MemorySource {
    unread: Unread,
    piece: usize,
    failing: Vec<u64>,
    calls: u64,
    faults: u64,
}

impl Model for MemorySource {
    ghost use Rattle.std.specs.Prelude.{ℕ, ◌≤◌};
    ghost use Rattle.shen_base.specs.Memory.{Supply};

    ghost Value = { Supply };

    ghost view = { λ source. record
        { unread = source.unread; piece = source.piece; failing = source.failing.items; calls = source.calls; faults = source.faults } };

    ghost invariant = { λ source. 1 ≤ source.piece };
}

impl MemorySource {
    /// A source that gives `bytes`, at most `piece` in a call. Its calls whose numbers, counted from 1, stand in
    /// `failing` fail and take nothing. From call 2^64 - 1 on each call has that number.
    pub fn new(bytes: Vec<u8>, piece: usize, failing: Vec<u64>) -> MemorySource
        requires { 1 ≤ piece }
        ensures { result ≡ record
            { unread = bytes.items; piece = piece; failing = failing.items; calls = 0; faults = 0 } }
    {
        MemorySource {
            unread: Unread::new(bytes),
            piece,
            failing,
            calls: 0,
            faults: 0,
        }
    }
}

impl Source for MemorySource {
    ghost left = { λ source. Some source.unread };

    ghost faults = { λ source. source.faults };

    ghost calls = { λ source. source.calls };

    fn read(&mut self, buf: &mut [u8]) -> Result<usize, Failed>
        ensures within { IfOk result (λ count. count ≤ length buf.new) }
        ensures next_bytes { IfOk result (λ count.
            Consumes (Some self.old.unread) (Some self.new.unread) (take count buf.new)) }
        ensures none_only_at_end { IfOk result (λ count. count ≡ 0 → 0 < length buf.new →
            IsAtEnd (Some self.new.unread)) }
        ensures failed_takes_none { OnErr result (Keeps (Some self.old.unread) (Some self.new.unread)) }
        ensures failed_only_by_fault { OnErr result (Rose self.old.faults self.new.faults) }
        ensures faults_never_fall { self.old.faults ≤ self.new.faults }
        ensures one_call { self.new.calls ≡ raised self.old.calls }

        // It fails exactly at the calls that were named.
        ensures fails { IsErr result ↔ IsNextFailing self.old.failing self.old.calls }
        ensures failed { OnErr result
            (self.new ≡ record self.old { calls = raised self.old.calls; faults = raised self.old.faults }) }
        ensures failed_buffer { OnErr result (buf.new ≡ buf.old) }

        // Else it gives a piece, or all that is left or that there is room for.
        ensures count { IfOk result (λ count.
            count ≡ min (min (length buf.old) self.old.piece) (length self.old.unread)) }
        ensures buffer { IfOk result (λ count. buf.new ≡ take count self.old.unread ++ drop count buf.old) }
        ensures given { IfOk result (λ count.
            self.new ≡ record self.old { unread = drop count self.old.unread; calls = raised self.old.calls }) }
    {
        raise(&mut self.calls);
        if self.failing.contains(&self.calls) {
            return Err(count_fault(&mut self.faults));
        }
        Ok(self.unread.give(self.piece, buf))
    }
}

/// A sink in memory that has room for so many bytes, takes small pieces, and fails at the calls that are named
/// beforehand. Contracts see it as a `Store`.
#[derive(Drop)]
pub struct MemorySink {
    bytes: Vec<u8>,
    // How many bytes it still takes, for which memory is reserved.
    room: usize,
    piece: usize,
    failing: Vec<u64>,
    calls: u64,
    faults: u64,
}

impl Model for MemorySink {
    ghost use Rattle.std.specs.Prelude.{ℕ, ◌+◌, ◌≤◌, vec_len, vec_capacity};
    ghost use Rattle.shen_base.specs.Memory.{Store};

    ghost Value = { Store };

    ghost view = { λ sink. record {
      stored = sink.bytes.items;
      room = sink.room;
      piece = sink.piece;
      failing = sink.failing.items;
      calls = sink.calls;
      faults = sink.faults;
    } };

    ghost invariant = { λ sink. (1 ≤ sink.piece) × (vec_len sink.bytes + sink.room ≤ vec_capacity sink.bytes) };
}

impl MemorySink {
    /// A sink with reserved room for `room` bytes, which takes at most `piece` in a call. A call fails exactly where
    /// its number, counted from 1, stands in `failing`, or where no room is left for a byte of a piece that is not
    /// empty. From call 2^64 - 1 on each call has that number.
    pub fn with_room(
        alloc: Global,
        room: usize,
        piece: usize,
        failing: Vec<u64>,
    ) -> Result<MemorySink, NoMemory>
        requires { 1 ≤ piece }
        ensures opened { IfOk result (λ sink. sink ≡ record
            { stored = []; room = room; piece = piece; failing = failing.items; calls = 0; faults = 0 }) }
        ensures no_room_needs_no_memory { room ≡ 0 → IsOk result }
    {
        match Vec::with_capacity(alloc, room) {
            Ok(bytes) => Ok(MemorySink {
                bytes,
                room,
                piece,
                failing,
                calls: 0,
                faults: 0,
            }),
            Err(_) => Err(NoMemory),
        }
    }

    /// The bytes that were written.
    pub fn bytes(&self) -> &[u8]
        ensures { result.now ≡ self.now.stored }
    {
        &self.bytes
    }
}

impl Sink for MemorySink {
    ghost written = { λ sink. Some sink.stored };

    ghost faults = { λ sink. sink.faults };

    ghost calls = { λ sink. sink.calls };

    fn write(&mut self, piece: &[u8]) -> Result<usize, Failed>
        ensures within { IfOk result (λ count. count ≤ length piece.now) }
        ensures appended { IfOk result (λ count.
            Appends (Some self.old.stored) (Some self.new.stored) (take count piece.now)) }
        ensures none_only_of_empty { IfOk result (λ count. count ≡ 0 → length piece.now ≡ 0) }
        ensures failed_writes_none { OnErr result (Keeps (Some self.old.stored) (Some self.new.stored)) }
        ensures failed_only_by_fault { OnErr result (Rose self.old.faults self.new.faults) }
        ensures faults_never_fall { self.old.faults ≤ self.new.faults }
        ensures one_call { self.new.calls ≡ raised self.old.calls }

        // It fails exactly at the calls that were named, and where it is full.
        ensures fails { IsErr result ↔
            (IsNextFailing self.old.failing self.old.calls ⊎ IsFullFor self.old piece.now) }
        ensures failed { OnErr result
            (self.new ≡ record self.old { calls = raised self.old.calls; faults = raised self.old.faults }) }

        // Else it takes a piece, or all that was handed in or that there is room for.
        ensures count { IfOk result (λ count. count ≡ min (min (length piece.now) self.old.piece) self.old.room) }
        ensures taken { IfOk result (λ count. self.new ≡ record self.old
            { stored = self.old.stored ++ take count piece.now; room = self.old.room - count; calls = raised self.old.calls }) }
    {
        raise(&mut self.calls);
        let is_full = self.room == 0 && !piece.is_empty();
        if is_full || self.failing.contains(&self.calls) {
            return Err(count_fault(&mut self.faults));
        }
        let count = piece.len().min(self.piece).min(self.room);
        self.bytes.extend_from_slice(&piece[..count]).unwrap();
        self.room -= count;
        Ok(count)
    }
}
