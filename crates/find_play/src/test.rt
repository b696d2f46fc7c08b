ghost use Rattle.std.specs.Prelude.{◌≡◌, [], ◌∷◌, ◌++◌, OnOk, OnErr};

use crate::claim::Claim;
use crate::names::Names;
use crate::statement::Statement;
use heap_words::Config;
use shen_graph::NoMemory;
use std::alloc::Global;
use std::marker::Model;

/// Within which bounds the schedules of a test are searched.
#[derive(Clone, Copy)]
pub struct Bounds {
    /// The most preemptions of a schedule, 0 to 1000.
    pub preemptions: u64,
    /// The most steps of a schedule, 1 to 4000000000.
    pub steps: u64,
    /// How often a thread may go back to the beginning of a loop in all, 0 to 1000000.
    pub returns: u64,
}

/// A place in the graph: the reference in this field of the object at another place. Place 0 is the hub.
#[derive(Clone, Copy, PartialEq, Eq)]
pub struct Place {
    /// The number of the other place, smaller than that of this one.
    pub from: usize,
    /// The field, 0 to 31.
    pub field: u32,
}

/// The statements of one thread, in their order. Contracts see it as a list of statements.
#[derive(Drop)]
pub struct Program {
    statements: Vec<Statement>,
}

impl Model for Program {
    ghost use Rattle.std.specs.Prelude.{List};
    ghost use Rattle.find_play.specs.declared.statement.Statement.{Statement};

    ghost Value = { List Statement };

    ghost view = { λ program. program.statements.items };
}

impl Program {
    /// A program without a statement.
    pub fn open(alloc: Global) -> Program
        ensures { result ≡ [] }
    {
        Program {
            statements: Vec::new(alloc),
        }
    }

    /// Adds a statement at the end.
    pub fn push(&mut self, statement: Statement) -> Result<(), NoMemory>
        ensures ok { OnOk result (self.new ≡ self.old ++ statement ∷ []) }
        ensures kept { OnErr result (self.new ≡ self.old) }
    {
        self.statements.push(statement)?;
        Ok(())
    }

    /// The statements, in their order.
    pub fn list(&self) -> &[Statement]
        ensures { result.now ≡ self.now }
    {
        &self.statements
    }
}

/// A test: programs, what it claims of their runs, and within which bounds they are searched.
#[derive(Drop)]
pub struct Test {
    /// The version of its format, that of traces: from version 2 on its threads can pin.
    pub version: u32,
    /// The sizes of the heap, and how many machines work on it.
    pub config: Config,
    /// The bounds of the search.
    pub bounds: Bounds,
    /// A program for each mutator, that of thread 1 first.
    pub programs: Vec<Program>,
    /// The names of the notes.
    pub notes: Names,
    /// The names of the places; the first is `hub`.
    pub place_names: Names,
    /// The places from 1 on.
    pub places: Vec<Place>,
    /// What is claimed.
    pub claims: Vec<Claim>,
}
