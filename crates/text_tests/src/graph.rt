//! What a plain graph answers to the commands of one thread, by hand, and which names it reaches.
ghost use Rattle.std.specs.Prelude.{◌≡◌, ℕ, ◌+◌, ◌-◌, ◌^◌, ◌<◌, ◌≤◌, length, OnOk};
ghost use Rattle.shen_graph.specs.PlainGraph.{graph_of, threads_of};

use shen_graph::{Command, Name, NoMemory, PlainGraph, Reply};
use std::alloc::Global;
use std::process::Abort;
use std::test::Fail;

const FIRST: Name = Name {
    thread: 1,
    count: 1,
};

const COMMANDS: [Command; 16] = [
    Command::Get {
        dst: 1,
        src: 5,
        field: 0,
    },
    Command::Get {
        dst: 1,
        src: 0,
        field: 16,
    },
    Command::New {
        dst: 1,
        refs: 1,
        nums: 2,
    },
    Command::Set {
        obj: 0,
        field: 3,
        val: 1,
    },
    Command::Get {
        dst: 2,
        src: 0,
        field: 3,
    },
    Command::Rd { obj: 1, index: 2 },
    Command::Rd { obj: 1, index: 1 },
    Command::Wr {
        obj: 1,
        index: 0,
        value: u64::MAX,
    },
    Command::Rd { obj: 1, index: 0 },
    Command::Copy { dst: 5, src: 1 },
    Command::Same { a: 1, b: 5 },
    Command::Same { a: 3, b: 4 },
    Command::Same { a: 1, b: 3 },
    Command::Cas {
        obj: 0,
        field: 0,
        expect: 3,
        val: 1,
    },
    Command::Cas {
        obj: 0,
        field: 0,
        expect: 3,
        val: 2,
    },
    Command::Drop { dst: 5 },
];

const REPLIES: [Reply; 16] = [
    Reply::Bad,
    Reply::Bad,
    Reply::Ref(FIRST),
    Reply::Ok,
    Reply::Ref(FIRST),
    Reply::Bad,
    Reply::Number(0),
    Reply::Ok,
    Reply::Number(u64::MAX),
    Reply::Ok,
    Reply::Yes,
    Reply::Yes,
    Reply::No,
    Reply::Yes,
    Reply::No,
    Reply::Ok,
];

/// What a thread is answered to its commands.
pub fn answers(
    rt: &impl Abort,
    alloc: Global,
    plain: &mut PlainGraph,
    thread: u32,
    commands: &[Command],
) -> Result<Vec<Reply>, NoMemory>
    requires thread { (1 ≤ thread) × (thread ≤ threads_of plain.old) }
    requires room { (graph_of plain.old).count thread + length commands.now < 2 ^ 32 - 1 }
    ensures threads { threads_of plain.new ≡ threads_of plain.old }
    ensures made { OnOk result ((thread : ℕ) → (graph_of plain.new).count thread ≤ (graph_of plain.old).count thread + length commands.now) }
{
    let mut replies = Vec::new(alloc);
    for command in commands {
        assert!(rt; command.is_valid());
        if let Command::Pin { .. } = command {
            continue;
        }
        let reply = plain.apply(alloc, thread, command)?;
        replies.push(reply)?;
    }
    Ok(replies)
}

#[test]
fn commands_are_answered_and_names_are_reached(rt: HostRuntime) -> Result<(), Fail> {
    let alloc = rt.alloc();
    let mut plain = PlainGraph::open(alloc, 1)?;
    let replies = answers(&rt, alloc, &mut plain, 1, &COMMANDS)?;
    assert!(rt; replies.as_slice() == REPLIES.as_slice());
    let names = plain.reach(alloc)?;
    assert!(rt; names.as_slice() == [Name::HUB, FIRST].as_slice());
    Ok(())
}
