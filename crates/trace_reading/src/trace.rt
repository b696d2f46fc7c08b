//! Traces: a version, a configuration, a script for each thread, and a schedule.
ghost use Rattle.std.specs.Prelude.{◌≡◌};

use heap_words::{Config, Schedule};
use shen_graph::Script;
use std::marker::Model;

/// The scripts of the threads, that of thread 1 first. Contracts see them as a list of lists of commands.
#[derive(Drop)]
pub struct Scripts {
    scripts: Vec<Script>,
}

impl Model for Scripts {
    ghost use Rattle.std.specs.Prelude.{List};
    ghost use Rattle.shen_graph.specs.declared.command.Command.{Command};

    ghost Value = { List (List Command) };

    ghost view = { λ scripts. scripts.scripts.items };
}

impl Scripts {
    /// The scripts of these threads.
    pub fn from_vec(scripts: Vec<Script>) -> Scripts
        ensures { result ≡ scripts.items }
    {
        Scripts { scripts }
    }

    /// The scripts of these threads, back, without taking memory.
    pub fn into_vec(self) -> Vec<Script>
        ensures { result.items ≡ self }
    {
        self.scripts
    }

    /// The scripts, that of thread 1 first.
    pub fn list(&self) -> &[Script]
        ensures { result.now ≡ self.now }
    {
        &self.scripts
    }
}

/// A trace: its version, the sizes of the heap, what each thread is to run, and in which order the machines step at first.
#[derive(Drop)]
pub struct Trace {
    /// The version of the format, 1 or 2.
    pub version: u32,
    /// The sizes of the heap, and how many machines work on it.
    pub config: Config,
    /// A script for each mutator.
    pub scripts: Scripts,
    /// The items of all lines of the schedule, in order.
    pub schedule: Schedule,
}
