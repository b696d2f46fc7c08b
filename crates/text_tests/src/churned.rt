//! The scripts of a churn as they are written down, what a plain graph answers to them, and how a run is summed up.
ghost use Rattle.std.specs.Prelude.{◌≡◌, [], ◌∷◌};
ghost use Rattle.shen_graph.specs.declared.command.Command.TheVariants.{New, Get, Set, Cas, Xchg, Rd, Wr, Drop};
ghost use Rattle.churn.specs.Script.{churn_script};

use crate::graph::answers;
use churn::{Summary, churn_scripts, summarize};
use shen_graph::{GraphText, Name, PlainGraph, Reply, Work};
use std::test::Fail;

// The second thread's script of one round of seed 0, by hand, against its definition.
fn one_round()
    ensures { churn_script 0 1 2 ≡ New 1 16 0 ∷ Set 0 2 1 ∷ New 2 0 1 ∷ Wr 2 0 1 ∷ Set 1 0 2 ∷ Drop 2 ∷ Get 3 1 0 ∷ Rd 3 0 ∷
        Cas 1 0 3 3 ∷ Xchg 4 1 0 3 ∷ [] }
{}

#[test]
fn the_script_of_one_round() {
    one_round();
}

// The sum of the numbers among replies.
fn sum_of(replies: &[Reply]) -> u64 {
    let mut sum: u64 = 0;
    for reply in replies {
        if let Reply::Number(number) = reply {
            sum = sum.saturating_add(*number);
        }
    }
    sum
}

// Fifty rounds read 8 to 57, which are 1625 in each thread. The hub, three boxes and sixteen objects in each can be
// reached then.
#[test]
fn fifty_rounds_in_a_plain_graph(rt: HostRuntime) -> Result<(), Fail> {
    let alloc = rt.alloc();
    let scripts = churn_scripts(alloc, 7, 50)?;
    let mut plain = PlainGraph::open(alloc, 3)?;
    assert!(rt; scripts.len() == 3);
    for turn in 0..3u32 {
        let commands = scripts[turn as usize].list();
        assert!(rt; commands.len() == 402);
        let replies = answers(&rt, alloc, &mut plain, turn + 1, commands)?;
        assert!(rt; !replies.contains(&Reply::Bad) && sum_of(&replies) == 1625);
    }
    assert!(rt; plain.reach(alloc)?.len() == 52);
    Ok(())
}

#[test]
fn replies_and_objects_are_counted(rt: HostRuntime) -> Result<(), Fail> {
    let alloc = rt.alloc();
    let scripts = churn_scripts(alloc, 0, 0)?;
    let mut work = Work::open(alloc, &scripts)?;
    work.told(0, Reply::Number(5));
    work.told(1, Reply::Bad);
    work.told(2, Reply::Null);
    let mut text = GraphText::open(alloc, 30, 3)?;
    text.object(Name::HUB);
    text.reference(None);
    text.number(7);
    let wanted = Summary {
        seed: 4,
        count: 2,
        commands: 3,
        bad: 1,
        full: 0,
        objects: 1,
        words: 5,
        sum: 5,
    };
    assert!(rt; summarize(4, 2, &work, &text) == wanted);
    Ok(())
}
