//! What a line adds to a draft.
ghost use Rattle.std.specs.Prelude.{◌≡◌, ◌∷◌, [], codes, length, IfOk, OnOk};
ghost use Rattle.find_play.specs.Told.{told_in, untold};
ghost use Rattle.find_play.specs.Added.{command_said, claim_said, last_program, does, with_block, without_block, claiming, placing, stated, added};
ghost use Rattle.find_play.specs.Drafts.{innermost};

use crate::draft::{Block, Draft};
use crate::kind::LineKind;
use crate::line::Line;
use crate::slot::Value;
use crate::{Bounds, Claim, Names, Place, Program, Statement, Wanted};
use shen_graph::{Command, NoMemory};
use std::alloc::Global;
use trace_reading::CommandKind;

/// The command of a kind, of roots, small numbers and a large one.
fn command_of(kind: CommandKind, values: [Value; 4]) -> Command
    ensures { result ≡ command_said kind values }
{
    let [first, second, third, fourth] = values;
    let (a, b, c, d) = (first.small(), second.small(), third.small(), fourth.small());
    match kind {
        CommandKind::New => Command::New {
            dst: a,
            refs: b,
            nums: c,
        },
        CommandKind::Get => Command::Get {
            dst: a,
            src: b,
            field: c,
        },
        CommandKind::Set => Command::Set {
            obj: a,
            field: b,
            val: c,
        },
        CommandKind::Cas => Command::Cas {
            obj: a,
            field: b,
            expect: c,
            val: d,
        },
        CommandKind::Xchg => Command::Xchg {
            dst: a,
            obj: b,
            field: c,
            val: d,
        },
        CommandKind::Rd => Command::Rd { obj: a, index: b },
        CommandKind::Wr => Command::Wr {
            obj: a,
            index: b,
            value: third.large(),
        },
        CommandKind::Copy => Command::Copy { dst: a, src: b },
        CommandKind::Drop => Command::Drop { dst: a },
        CommandKind::Same => Command::Same { a, b },
        CommandKind::Gc => Command::Gc,
        CommandKind::Pin => Command::Pin { slot: a, obj: b },
        CommandKind::Unpin => Command::Unpin { slot: a },
    }
}

/// What a line of a fact claims.
fn claim_of(kind: LineKind, values: [Value; 4]) -> Claim
    ensures { result ≡ claim_said kind values }
{
    let [first, second, third, _] = values;
    match kind {
        LineKind::Assert => Claim::Assert,
        LineKind::Is => Claim::Is {
            wanted: first.wanted(),
            note: second.index(),
        },
        LineKind::Isnt => Claim::Isnt {
            wanted: first.wanted(),
            note: second.index(),
        },
        LineKind::Never => Claim::Never {
            wanted: first.wanted(),
        },
        LineKind::Count => Claim::Count {
            wanted: first.wanted(),
            count: second.large(),
        },
        LineKind::Alike => Claim::Alike {
            a: first.index(),
            b: second.index(),
        },
        LineKind::Differ => Claim::Differ {
            a: first.index(),
            b: second.index(),
        },
        LineKind::Number => Claim::Number {
            place: first.index(),
            index: second.small(),
            value: third.large(),
        },
        LineKind::Null => Claim::Null {
            place: first.index(),
        },
        LineKind::Chain => Claim::Chain {
            place: first.index(),
            field: second.small(),
            length: third.large(),
        },
        LineKind::One => Claim::Same {
            a: first.index(),
            b: second.index(),
        },
        _ => Claim::Or,
    }
}

/// The names of the roots of a thread, or of the places, before a line gives one.
pub(crate) fn hub_alone(alloc: Global) -> Result<Names, NoMemory>
    ensures { IfOk result (λ names. names ≡ codes "hub" ∷ []) }
{
    let mut names = Names::open(alloc);
    names.push(alloc, b"hub")?;
    Ok(names)
}

impl Draft {
    /// A draft of no line, of a version and for so many threads.
    pub(crate) fn open(alloc: Global, version: u32, threads: usize) -> Result<Draft, NoMemory>
        ensures { IfOk result (λ draft. told_in draft ≡ untold version threads) }
    {
        Ok(Draft {
            version,
            threads,
            bounds: None,
            notes: Names::open(alloc),
            place_names: hub_alone(alloc)?,
            places: Vec::new(alloc),
            roots: hub_alone(alloc)?,
            programs: Vec::new(alloc),
            open: Vec::new(alloc),
            claims: Vec::new(alloc),
        })
    }

    /// How many statements the thread has that began last.
    fn count(&self) -> usize
        ensures { result ≡ length (last_program (told_in self.now)) }
    {
        match self.programs.as_slice() {
            [.., program] => program.list().len(),
            [] => 0,
        }
    }

    /// Adds a statement to the thread that began last.
    fn add(&mut self, statement: Statement) -> Result<(), NoMemory>
        ensures { OnOk result (told_in self.new ≡ does (told_in self.old) statement) }
    {
        let count = self.programs.len();
        if count > 0 {
            self.programs[count - 1].push(statement)?;
        }
        Ok(())
    }

    /// Begins another thread.
    fn begin(&mut self, alloc: Global) -> Result<(), NoMemory>
        ensures { OnOk result (told_in self.new ≡ added (told_in self.old) LineKind.Thread [] []) }
    {
        self.roots = hub_alone(alloc)?;
        self.programs.push(Program::open(alloc))?;
        Ok(())
    }

    /// Begins a block.
    fn open_block(&mut self, block: Block) -> Result<(), NoMemory>
        ensures { OnOk result (told_in self.new ≡ with_block (told_in self.old) block) }
    {
        self.open.push(block)?;
        Ok(())
    }

    /// Takes the innermost block away, if there is one.
    fn close_block(&mut self) -> Option<Block>
        ensures block { result ≡ innermost (told_in self.old) }
        ensures blocks { told_in self.new ≡ without_block (told_in self.old) }
    {
        self.open.pop()
    }

    /// Ends the innermost block.
    fn end(&mut self) -> Result<(), NoMemory>
        ensures { OnOk result (told_in self.new ≡ stated (told_in self.old) LineKind.End []) }
    {
        match self.close_block() {
            Some(Block::Loop(first)) => self.add(Statement::Again { first }),
            _ => self.add(Statement::End),
        }
    }

    /// Begins a loop behind what the program has.
    fn begin_loop(&mut self) -> Result<(), NoMemory>
        ensures { OnOk result (told_in self.new ≡ stated (told_in self.old) LineKind.Loop []) }
    {
        self.add(Statement::Loop)?;
        let block = Block::Loop(self.count());
        self.open_block(block)
    }

    /// Begins an `if`.
    fn begin_if(&mut self, wanted: Wanted) -> Result<(), NoMemory>
        ensures { OnOk result (told_in self.new ≡ with_block (does (told_in self.old) (Statement.If wanted)) Block.Then) }
    {
        self.add(Statement::If(wanted))?;
        self.open_block(Block::Then)
    }

    /// Goes over to the other part of an `if`.
    fn begin_else(&mut self) -> Result<(), NoMemory>
        ensures { OnOk result (told_in self.new ≡ stated (told_in self.old) LineKind.Else []) }
    {
        self.add(Statement::Else)?;
        self.close_block();
        self.open_block(Block::Else)
    }

    /// Adds a line of what is claimed.
    fn claim(&mut self, claim: Claim) -> Result<(), NoMemory>
        ensures { OnOk result (told_in self.new ≡ claiming (told_in self.old) claim) }
    {
        self.claims.push(claim)?;
        Ok(())
    }

    /// Adds what a line of a program, or of what is claimed, says.
    fn take_statement(&mut self, kind: LineKind, values: [Value; 4]) -> Result<(), NoMemory>
        ensures { OnOk result (told_in self.new ≡ stated (told_in self.old) kind values) }
    {
        let first = values[0];
        match kind {
            LineKind::Command(command) => self.add(Statement::Run(command_of(command, values))),
            LineKind::Keep => self.add(Statement::Keep {
                note: first.index(),
            }),
            LineKind::Loop => self.begin_loop(),
            LineKind::Until => self.add(Statement::Until(first.wanted())),
            LineKind::If => self.begin_if(first.wanted()),
            LineKind::Else => self.begin_else(),
            LineKind::End => self.end(),
            _ => self.claim(claim_of(kind, values)),
        }
    }

    /// Gives a place its name, and says where it is.
    fn add_place(&mut self, alloc: Global, name: &[u8], place: Place) -> Result<(), NoMemory>
        ensures { OnOk result (told_in self.new ≡ placing (told_in self.old) name.now place) }
    {
        self.place_names.push(alloc, name)?;
        self.places.push(place)?;
        Ok(())
    }

    /// Adds what a line says.
    pub(crate) fn take(&mut self, alloc: Global, line: Line) -> Result<(), NoMemory>
        ensures { OnOk result (told_in self.new ≡ added (told_in self.old) line.entry.kind line.entry.values line.entry.name.now) }
    {
        let [first, second, third, _] = line.values;
        match line.kind {
            LineKind::Bounds => {
                self.bounds = Some(Bounds {
                    preemptions: first.large(),
                    steps: second.large(),
                    returns: third.large(),
                });
                Ok(())
            }
            LineKind::Note => self.notes.push(alloc, line.name),
            LineKind::Root => self.roots.push(alloc, line.name),
            LineKind::Place => {
                let place = Place {
                    from: second.index(),
                    field: third.small(),
                };
                self.add_place(alloc, line.name, place)
            }
            LineKind::Thread => self.begin(alloc),
            _ => self.take_statement(line.kind, line.values),
        }
    }
}
