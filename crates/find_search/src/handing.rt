//! Giving a mutator its next command.
ghost use Rattle.std.specs.Prelude.{◌≡◌, ◌<◌, [], length, All, IfOk, OnOk, OnErr};
ghost use Rattle.find_search.specs.Courses.{short_script, IsWorkOf, IsHandedOver};

use heap_words::NoMemory;
use shen_graph::{Command, Script, Work};
use std::alloc::Global;

/// A script of one command, or of none.
pub(crate) fn short_script(alloc: Global, command: Option<Command>) -> Result<Script, NoMemory>
    ensures { IfOk result (λ script. script ≡ short_script command) }
{
    let Ok(mut script) = Script::open(alloc) else {
        return Err(NoMemory);
    };
    if let Some(command) = command {
        let Ok(()) = script.push(alloc, command) else {
            return Err(NoMemory);
        };
    }
    Ok(script)
}

/// So many scripts without a command.
pub(crate) fn empty_scripts(alloc: Global, count: usize) -> Result<Vec<Script>, NoMemory>
    ensures count { IfOk result (λ scripts. length scripts.items ≡ count) }
    ensures empty { IfOk result (λ scripts. All (λ script. script ≡ []) scripts.items) }
{
    let mut scripts = Vec::new(alloc);
    for made in 0..count {
        let Ok(()) = scripts.push(short_script(alloc, None)?) else {
            return Err(NoMemory);
        };
    }
    Ok(scripts)
}

/// The work of one mutator alone, counted from 0.
pub(crate) fn work_of(
    alloc: Global,
    mutator: usize,
    command: Option<Command>,
) -> Result<Work, NoMemory>
    requires { mutator < 8 }
    ensures { IfOk result (λ work. IsWorkOf mutator (short_script command) work) }
{
    let mut scripts = empty_scripts(alloc, mutator)?;
    let Ok(()) = scripts.push(short_script(alloc, command)?) else {
        return Err(NoMemory);
    };
    let Ok(mut work) = Work::of(alloc, scripts) else {
        return Err(NoMemory);
    };
    Ok(work.part(8, mutator))
}

/// Gives a mutator another script.
pub(crate) fn hand_over(
    alloc: Global,
    work: &mut Work,
    mutator: usize,
    command: Option<Command>,
) -> Result<(), NoMemory>
    requires { mutator < 8 }
    ensures ok { OnOk result (IsHandedOver mutator (short_script command) work.old work.new) }
    ensures kept { OnErr result (work.new ≡ work.old) }
{
    let fresh = work_of(alloc, mutator, command)?;
    let _ = work.part(8, mutator);
    work.join(fresh);
    Ok(())
}
