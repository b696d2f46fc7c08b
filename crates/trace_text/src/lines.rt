//! Taking lines.
ghost use Rattle.std.specs.Prelude.{◌≡◌, ◌↔◌, true, false, [], ◌∷◌, ◌++◌, Err, Some, IfOk, IfSome, OnOk, OnErr};
ghost use Rattle.trace_reading.specs.Spelling.{newline, IsVersion, schedule_line, IsScheduleLine};
ghost use Rattle.trace_reading.specs.Grammar.{scripts_of};
ghost use Rattle.trace_reading.specs.declared.why.Why.{Why as Cause};
ghost use Rattle.trace_text.specs.LinesTaken.{none_taken, TakesCommand, TakesItems, TakesLine, line_cause, spelled_line, IsCommandText, IsItemsText};
ghost use Rattle.std.specs.Option.{option_map};

use heap_words::{Config, Item, Schedule};
use shen_graph::{Command, NoMemory, Script};
use std::alloc::Global;
use std::marker::Model;
use trace_reading::{
    Scripts, Trace, Why, command_at, positive_at, text_at, text_cause, trace_behind,
};

/// Why a line was not taken.
#[derive(Clone, Copy, PartialEq, Eq)]
pub enum LineFault {
    /// The line may not stand there, for this cause, the first that holds.
    Bad { why: Why },
    /// Memory was refused.
    NoMemory,
}

/// The lines of a trace behind its head, as far as they were taken.
#[derive(Drop)]
pub struct TraceLines {
    version: u32,
    config: Config,
    scripts: Vec<Script>,
    schedule: Schedule,
    scheduled: bool,
}

impl Model for TraceLines {
    ghost use Rattle.trace_text.specs.LinesTaken.{Taken};

    ghost Value = { Taken };

    ghost view = { λ lines. record { version = lines.version; config = lines.config; scripts = lines.scripts.items; items = lines.schedule; scheduled = lines.scheduled } };
}

// A script without a command for each of so many threads.
fn empty_scripts(alloc: Global, threads: u32) -> Result<Vec<Script>, NoMemory>
    ensures { IfOk result (λ scripts. scripts.items ≡ scripts_of threads []) }
{
    let mut scripts = Vec::new(alloc);
    for _ in 0..threads {
        let Ok(script) = Script::open(alloc) else {
            return Err(NoMemory);
        };
        if scripts.push(script).is_err() {
            return Err(NoMemory);
        }
    }
    Ok(scripts)
}

// The thread and the command of a version, of a line without its end.
#[tactic(auto, unfolding(crate::specs::LinesTaken::spelled_line))]
fn command_in(version: u32, threads: u64, text: &[u8]) -> Option<(u64, Command)>
    ensures { option_map (λ x. record { thread = x.0; command = x.1 }) result ≡ spelled_line version threads text.now }
{
    let (thread, rest) = positive_at(threads, text)?;
    let rest = text_at(b" ", rest)?;
    let (command, rest) = command_at(version, rest)?;
    if rest.is_empty() {
        Some((thread, command))
    } else {
        None
    }
}

// Puts items at the end of a schedule.
fn add(alloc: Global, schedule: &mut Schedule, items: &[Item]) -> Result<(), heap_words::NoMemory>
    ensures { OnOk result (schedule.new ≡ schedule.old ++ items.now) }
{
    for item in items {
        schedule.push(alloc, *item)?;
    }
    Ok(())
}

// The schedule of both.
fn joined(alloc: Global, front: &[Item], back: &[Item]) -> Result<Schedule, heap_words::NoMemory>
    ensures { IfOk result (λ schedule. schedule ≡ front.now ++ back.now) }
{
    let mut schedule = Schedule::open(alloc)?;
    add(alloc, &mut schedule, front)?;
    add(alloc, &mut schedule, back)?;
    Ok(schedule)
}

// The line with its end.
fn ended(alloc: Global, text: &[u8]) -> Result<Vec<u8>, NoMemory>
    ensures { IfOk result (λ bytes. bytes.items ≡ text.now ++ newline ∷ []) }
{
    let mut bytes = Vec::new(alloc);
    bytes.extend_from_slice(text)?;
    bytes.push(b'\n')?;
    Ok(bytes)
}

// The items of a line of the schedule, given without its end. None: memory was refused.
fn items_in(alloc: Global, config: Config, text: &[u8]) -> Option<Schedule>
    requires line { IsItemsText config text.now }
    ensures { IfSome result (λ items. IsScheduleLine config items × (text.now ++ newline ∷ [] ≡ schedule_line items)) }
{
    let Ok(bytes) = ended(alloc, text) else {
        return None;
    };
    match trace_behind(alloc, 1, config, 1, &bytes) {
        Ok(trace) => Some(trace.schedule),
        Err(_) => None,
    }
}

impl TraceLines {
    /// No line yet, of a trace of this configuration and of version 1 or 2.
    pub fn open(alloc: Global, config: Config, version: u32) -> Result<TraceLines, NoMemory>
        requires { IsVersion version }
        ensures { IfOk result (λ lines. lines ≡ none_taken version config) }
    {
        let scripts = empty_scripts(alloc, config.mutators() as u32)?;
        let Ok(schedule) = Schedule::open(alloc) else {
            return Err(NoMemory);
        };
        Ok(TraceLines {
            version,
            config,
            scripts,
            schedule,
            scheduled: false,
        })
    }

    /// Takes a line, given without its end: that of a command, or one of the schedule, behind which no command may stand. The error
    /// is the first cause for which the line may not stand there, or that memory was refused; then all is as before. A line of the
    /// schedule takes time for all items that were taken.
    pub fn line(&mut self, alloc: Global, line: &[u8]) -> Result<(), LineFault>
        ensures taken { OnOk result (TakesLine self.old line.now self.new) }
        ensures bad { (why : Cause) → (result ≡ Err (LineFault.Bad why)) ↔ (line_cause self.old line.now ≡ Some why) }
        ensures kept { OnErr result (self.new ≡ self.old) }
    {
        if let Some(why) = text_cause(self.version, &self.config, self.scheduled, line) {
            return Err(LineFault::Bad { why });
        }
        let taken = match text_at(b"!", line) {
            Some(_) => self.take_items(alloc, line),
            None => self.take_command(alloc, line),
        };
        if taken {
            Ok(())
        } else {
            Err(LineFault::NoMemory)
        }
    }

    /// The trace of the lines that were taken.
    pub fn end(self) -> Trace
        ensures version { result.version ≡ self.version }
        ensures config { result.config ≡ self.config }
        ensures scripts { result.scripts ≡ self.scripts }
        ensures schedule { result.schedule ≡ self.items }
    {
        Trace {
            version: self.version,
            config: self.config,
            scripts: Scripts::from_vec(self.scripts),
            schedule: self.schedule,
        }
    }

    // Takes the line of a command. False: memory was refused.
    fn take_command(&mut self, alloc: Global, line: &[u8]) -> bool
        requires before { self.old.scheduled ≡ false }
        requires line { IsCommandText self.old.version self.old.config line.now }
        ensures taken { result ≡ true → TakesCommand self.old line.now self.new }
        ensures kept { result ≡ false → self.new ≡ self.old }
    {
        let threads = self.config.mutators() as u64;
        let (thread, command) = command_in(self.version, threads, line).unwrap();
        let script = thread as usize - 1;
        script >= self.scripts.len() || self.scripts[script].push(alloc, command).is_ok()
    }

    // Takes a line of the schedule. False: memory was refused.
    fn take_items(&mut self, alloc: Global, line: &[u8]) -> bool
        requires line { IsItemsText self.old.config line.now }
        ensures taken { result ≡ true → TakesItems self.old line.now self.new }
        ensures kept { result ≡ false → self.new ≡ self.old }
    {
        let Some(items) = items_in(alloc, self.config, line) else {
            return false;
        };
        let Ok(schedule) = joined(alloc, self.schedule.list(), items.list()) else {
            return false;
        };
        self.schedule = schedule;
        self.scheduled = true;
        true
    }
}
