ghost use Rattle.std.specs.Prelude.{◌≡◌, ◌+◌, ◌<◌, ◌≤◌, [], ◌∷◌, ◌++◌, length, Some, IfOk, OnOk, OnErr, slice_get};
ghost use Rattle.shen_graph.specs.Noting.{entry, seen};

use crate::NoMemory;
use crate::command::{Command, Reply};
use std::alloc::Global;
use std::marker::Model;

/// A command of a thread, and what it was answered.
#[derive(Clone, Copy)]
pub struct Entry {
    /// The thread, counted from 1.
    pub thread: u32,
    /// What it asked for.
    pub command: Command,
    /// What it was answered.
    pub reply: Reply,
}

/// The commands of all threads in one order, each with its reply.
#[derive(Drop)]
pub struct History {
    entries: Vec<Entry>,
}

impl Model for History {
    ghost use Rattle.std.specs.Prelude.{◌-◌, map, vec_len, vec_capacity};
    ghost use Rattle.shen_graph.specs.Noting.{Noting, seen as seen_entry};

    ghost Value = { Noting };

    ghost view = { λ history. record { list = map seen_entry history.entries.items; spare = vec_capacity history.entries - vec_len history.entries } };
}

impl History {
    /// A history without an entry, and with memory for none.
    pub fn open(alloc: Global) -> Result<History, NoMemory>
        ensures none { IfOk result (λ history. history.list ≡ []) }
        ensures spare { IfOk result (λ history. history.spare ≡ 0) }
    {
        let entries = Vec::with_capacity(alloc, 0)?;
        Ok(History { entries })
    }

    /// Adds an entry at the end. After `NoMemory` the history is as before.
    pub fn push(
        &mut self,
        alloc: Global,
        thread: u32,
        command: Command,
        reply: Reply,
    ) -> Result<(), NoMemory>
        ensures added { OnOk result (self.new.list ≡ self.old.list ++ entry thread command reply ∷ []) }
        ensures spare { self.old.spare ≤ self.new.spare + 1 }
        ensures kept { OnErr result (self.new ≡ self.old) }
    {
        self.reserve(alloc, 1)?;
        self.note(thread, command, reply);
        Ok(())
    }

    /// Takes memory for so many entries more. After `NoMemory` the history is as before.
    pub fn reserve(&mut self, _alloc: Global, entries: usize) -> Result<(), NoMemory>
        ensures list { self.new.list ≡ self.old.list }
        ensures spare { OnOk result (entries ≤ self.new.spare) }
        ensures more { self.old.spare ≤ self.new.spare }
        ensures kept { OnErr result (self.new ≡ self.old) }
    {
        self.entries.reserve(entries)?;
        Ok(())
    }

    /// Adds an entry at the end. It takes no memory.
    pub fn note(&mut self, thread: u32, command: Command, reply: Reply)
        requires { 0 < self.old.spare }
        ensures added { self.new.list ≡ self.old.list ++ entry thread command reply ∷ [] }
        ensures spare { self.new.spare + 1 ≡ self.old.spare }
    {
        self.entries.push_reserved(Entry {
            thread,
            command,
            reply,
        });
    }

    /// For how many more entries it has memory.
    pub fn spare(&self) -> usize
        ensures { result ≡ self.now.spare }
    {
        self.entries.capacity() - self.entries.len()
    }

    /// How many entries it has.
    pub fn len(&self) -> usize
        ensures { result ≡ length self.now.list }
    {
        self.entries.len()
    }

    /// The entry at a place, counted from 0.
    pub fn entry(&self, at: usize) -> Entry
        requires { at < length self.now.list }
        ensures { slice_get self.now.list at ≡ Some (seen result) }
    {
        self.entries[at]
    }
}
