ghost use Rattle.std.specs.Prelude.{◌≡◌, ◌+◌, ◌<◌, ◌^◌, ◌%◌, ◌++◌, IfOk, OnOk};
ghost use Rattle.churn.specs.Script.{making, loading, churn_script, churn_scripts};

use shen_graph::{Command, NoMemory, Script};
use std::alloc::Global;

// The roots that a thread uses: the hub, its box, a leaf that it has just made, one that it loaded, and one that it swapped out.
const SHARED_HUB: u32 = 0;

const OWN_BOX: u32 = 1;

const NEW_LEAF: u32 = 2;

const OLD_LEAF: u32 = 3;

const LAST_LEAF: u32 = 4;

// Adds the commands that make an object and put it into a slot.
fn add_making(alloc: Global, script: &mut Script, seed: u64, i: u64) -> Result<(), NoMemory>
    requires { seed + i + 1 < 2 ^ 64 }
    ensures { OnOk result (script.new ≡ script.old ++ making seed i) }
{
    let field = (i % 16) as u32;
    let refs = ((seed + i) % 4) as u32;
    let nums = 1 + (i % 8) as u32;
    let value = seed + i + 1;
    script.push(
        alloc,
        Command::New {
            dst: NEW_LEAF,
            refs,
            nums,
        },
    )?;
    let wr = Command::Wr {
        obj: NEW_LEAF,
        index: 0,
        value,
    };
    script.push(alloc, wr)?;
    let set = Command::Set {
        obj: OWN_BOX,
        field,
        val: NEW_LEAF,
    };
    script.push(alloc, set)?;
    script.push(alloc, Command::Drop { dst: NEW_LEAF })
}

// Adds the commands that load it and exchange the slot with itself.
fn add_loading(alloc: Global, script: &mut Script, i: u64) -> Result<(), NoMemory>
    ensures { OnOk result (script.new ≡ script.old ++ loading i) }
{
    let field = (i % 16) as u32;
    let get = Command::Get {
        dst: OLD_LEAF,
        src: OWN_BOX,
        field,
    };
    script.push(alloc, get)?;
    script.push(
        alloc,
        Command::Rd {
            obj: OLD_LEAF,
            index: 0,
        },
    )?;
    let cas = Command::Cas {
        obj: OWN_BOX,
        field,
        expect: OLD_LEAF,
        val: OLD_LEAF,
    };
    script.push(alloc, cas)?;
    let xchg = Command::Xchg {
        dst: LAST_LEAF,
        obj: OWN_BOX,
        field,
        val: OLD_LEAF,
    };
    script.push(alloc, xchg)
}

// The script of a thread, counted from 1.
fn churn_script(alloc: Global, seed: u64, count: u64, thread: u32) -> Result<Script, NoMemory>
    requires { seed + count < 2 ^ 64 }
    ensures { IfOk result (λ script. script ≡ churn_script seed count thread) }
{
    let mut script = Script::open(alloc)?;
    let new = Command::New {
        dst: OWN_BOX,
        refs: 16,
        nums: 0,
    };
    script.push(alloc, new)?;
    let set = Command::Set {
        obj: SHARED_HUB,
        field: thread,
        val: OWN_BOX,
    };
    script.push(alloc, set)?;
    for i in 0..count {
        add_making(alloc, &mut script, seed, i)?;
        add_loading(alloc, &mut script, i)?;
    }
    Ok(script)
}

/// The scripts of the three threads, that of thread 1 first, for a seed and a number of rounds.
/// `NoMemory` where memory is refused.
pub fn churn_scripts(alloc: Global, seed: u64, count: u64) -> Result<Vec<Script>, NoMemory>
    requires { seed + count < 2 ^ 64 }
    ensures { IfOk result (λ scripts. scripts.items ≡ churn_scripts seed count) }
{
    let mut scripts = Vec::with_capacity(alloc, 3)?;
    for thread in 1..4 {
        scripts.push(churn_script(alloc, seed, count, thread)?)?;
    }
    Ok(scripts)
}
