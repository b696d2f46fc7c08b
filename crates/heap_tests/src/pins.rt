//! Pinned objects: they stay at their places where a cycle ends for want of room, also in the collection set; and what has moved
//! beside one only fills then.
ghost use Rattle.std.specs.Prelude.{◌≡◌, ℕ, ◌+◌, ◌-◌, ◌^◌, ◌<◌, ◌≤◌, true, All, IfOk, OnOk};
ghost use Rattle.heap_words.specs.Words.{table_words};
ghost use Rattle.shen_graph.specs.PlainGraph.{graph_of, threads_of};
ghost use Rattle.shen_core.specs.State.{config_of};
ghost use Rattle.shen_core.specs.Progress.{IsInSeats, CanRun};
ghost use Rattle.shen_core.specs.Noting.{commands_in};

use crate::collections::{Row, place};
use crate::shared_heap::script;
use heap_words::{Config, Item, Place, Schedule, WordName};
use shen_core::Plain;
use shen_graph::{Command, History, Name, PlainGraph, Reply, Work};
use std::alloc::Global;
use std::process::Abort;
use std::test::Fail;

const REGIONS: usize = 4;

const REGION_WORDS: usize = 64;

// The threads, counted from 0, and the control.
pub(crate) const FIRST: usize = 0;

pub(crate) const SECOND: usize = 1;

const CONTROL: usize = 2;

// More steps than a run has.
const LONG: u64 = 100_000;

/// What two threads are to do in a heap of four regions, and the order of the steps at first.
pub(crate) struct Run {
    pub(crate) region_words: usize,
    pub(crate) first: &'static [Command],
    pub(crate) second: &'static [Command],
    pub(crate) items: &'static [Item],
}

// Objects of 4, 35 and 26 words.
pub(crate) const MAKE_SMALL: Command = Command::New {
    dst: 1,
    refs: 0,
    nums: 1,
};

pub(crate) const MAKE_LARGE: Command = Command::New {
    dst: 2,
    refs: 16,
    nums: 16,
};

const MAKE_MIDDLE: Command = Command::New {
    dst: 2,
    refs: 16,
    nums: 7,
};

// Field 0 of the hub names the small object.
pub(crate) const KEEP: Command = Command::Set {
    obj: 0,
    field: 0,
    val: 1,
};

const FIND: Command = Command::Get {
    dst: 1,
    src: 0,
    field: 0,
};

const CONTROL_CLAIMS: Item = Item::Until {
    number: CONTROL,
    place: Place::EC,
};

pub(crate) const CONTROL_PAUSES: Item = Item::Until {
    number: CONTROL,
    place: Place::P3,
};

pub(crate) const CONTROL_RESTS: Item = Item::Until {
    number: CONTROL,
    place: Place::I0,
};

const BOTH_OF_SECOND: Item = Item::Replies {
    number: SECOND,
    count: 2,
};

// An object at 128, which field 0 of the hub names, has garbage behind it; the other thread takes what is free. While objects are
// evacuated there is no room to copy it, so it is used where it is, in the collection set, and pinned there.
const OUT_OF_ROOM: Run = Run {
    region_words: REGION_WORDS,
    first: &[
        MAKE_SMALL,
        KEEP,
        MAKE_LARGE,
        MAKE_LARGE,
        MAKE_MIDDLE,
        Command::Drop { dst: 1 },
        Command::Drop { dst: 2 },
        Command::Gc,
        FIND,
        Command::Wr {
            obj: 1,
            index: 0,
            value: 7,
        },
        Command::Pin { slot: 0, obj: 1 },
        Command::Rd { obj: 1, index: 0 },
        Command::Pin { slot: 1, obj: 1 },
    ],
    second: &[MAKE_LARGE, MAKE_MIDDLE],
    items: &[
        Item::Replies {
            number: FIRST,
            count: 8,
        },
        CONTROL_CLAIMS,
        BOTH_OF_SECOND,
        Item::Replies {
            number: FIRST,
            count: 11,
        },
        CONTROL_PAUSES,
        CONTROL_RESTS,
        Item::Replies {
            number: FIRST,
            count: 13,
        },
    ],
};

// Two objects, at 128 and 132, of which the second names the first. The other thread copies the first to 256, into the last free
// region; for the second there is no room, and it is pinned where it is.
const BESIDE: Run = Run {
    region_words: REGION_WORDS,
    first: &[
        MAKE_SMALL,
        KEEP,
        Command::New {
            dst: 2,
            refs: 1,
            nums: 1,
        },
        Command::Set {
            obj: 2,
            field: 0,
            val: 1,
        },
        Command::Set {
            obj: 0,
            field: 1,
            val: 2,
        },
        MAKE_LARGE,
        MAKE_LARGE,
        MAKE_MIDDLE,
        Command::Drop { dst: 1 },
        Command::Drop { dst: 2 },
        Command::Gc,
        Command::Get {
            dst: 2,
            src: 0,
            field: 1,
        },
        Command::Pin { slot: 0, obj: 2 },
        Command::Get {
            dst: 3,
            src: 2,
            field: 0,
        },
        Command::Rd { obj: 3, index: 0 },
        Command::Pin { slot: 1, obj: 2 },
    ],
    second: &[
        FIND,
        Command::Wr {
            obj: 1,
            index: 0,
            value: 9,
        },
    ],
    items: &[
        Item::Replies {
            number: FIRST,
            count: 11,
        },
        CONTROL_CLAIMS,
        BOTH_OF_SECOND,
        Item::Replies {
            number: FIRST,
            count: 13,
        },
        CONTROL_PAUSES,
        CONTROL_RESTS,
    ],
};

// Whether a heap has the machine of an item, and a mutator where it counts replies.
fn is_in_seats(config: Config, item: Item) -> bool
    ensures { result ≡ true → IsInSeats config item }
{
    match item {
        Item::Steps { number, .. } | Item::Until { number, .. } => number < config.seats(),
        Item::Replies { number, .. } => number < config.mutators(),
    }
}

// Those of these items that the heap has machines for.
pub(crate) fn schedule(alloc: Global, config: Config, items: &[Item]) -> Result<Schedule, Fail>
    ensures { IfOk result (λ schedule. All (IsInSeats config) schedule) }
{
    let mut schedule = Schedule::open(alloc)?;
    for number in 0..items.len() {
        if is_in_seats(config, items[number]) {
            schedule.push(alloc, items[number])?;
        }
    }
    Ok(schedule)
}

/// A heap of two threads, their work, and what was settled.
#[derive(Drop)]
pub(crate) struct Played {
    pub(crate) plain: Plain,
    pub(crate) work: Work,
    history: History,
}

/// Before the first event, with memory for all that is to be settled.
pub(crate) fn opened(alloc: Global, run: &Run) -> Result<Played, Fail>
    ensures run { IfOk result (λ played. CanRun played.plain played.work) }
    ensures spare { IfOk result (λ played. commands_in (config_of played.plain) played.work ≤ played.history.spare) }
{
    let config = Config::wide(REGIONS, run.region_words, 2, 0, 0)?;
    let first = script(alloc, run.first)?;
    let second = script(alloc, run.second)?;
    let mut history = History::open(alloc)?;
    history.reserve(alloc, first.list().len() + second.list().len())?;
    let mut scripts = Vec::new(alloc);
    scripts.push(first)?;
    scripts.push(second)?;
    let work = Work::of(alloc, scripts)?;
    let plain = Plain::open(alloc, config)?;
    Ok(Played {
        plain,
        work,
        history,
    })
}

// After the run.
fn play(alloc: Global, run: &Run) -> Result<Played, Fail>
    ensures { IfOk result (λ played. CanRun played.plain played.work) }
{
    let mut played = opened(alloc, run)?;
    let schedule = schedule(alloc, played.plain.config(), run.items)?;
    played
        .plain
        .run_noted(&mut played.work, &schedule, LONG, &mut played.history);
    Ok(played)
}

impl Played {
    // Whether the threads were answered so.
    fn answered(&self, replies: &[&[Reply]]) -> bool
        requires { CanRun self.now.plain self.now.work }
    {
        for thread in 0..replies.len().min(self.plain.config().mutators()) {
            if self.work.replies(thread).list() != replies[thread] {
                return false;
            }
        }
        true
    }

    /// The words that have names hold this.
    pub(crate) fn compare(&self, rt: &impl Abort, words: &[Row]) {
        let config = self.plain.config();
        for (name, value) in words {
            let found = self.plain.word(place(rt, config, *name));
            assert_eq!(rt; found, *value, "{name:?}");
        }
    }
}

// Whether one of two threads may be answered so. Where it may, the graph is the one after it.
fn takes(
    alloc: Global,
    graph: &mut PlainGraph,
    thread: u32,
    command: Command,
    reply: Reply,
) -> Result<bool, Fail>
    requires threads { threads_of graph.old ≡ 2 }
    requires count { (thread : ℕ) → (graph_of graph.old).count thread < 2 ^ 32 - 1 }
    ensures threads { threads_of graph.new ≡ 2 }
    ensures made { OnOk result ((thread : ℕ) → (graph_of graph.new).count thread ≤ (graph_of graph.old).count thread + 1) }
{
    if thread == 0 || thread > 2 || !command.is_valid() {
        return Ok(false);
    }
    let may = graph.accept(
        alloc,
        REGIONS as u64,
        REGION_WORDS as u64,
        thread,
        &command,
        &reply,
    )?;
    Ok(may)
}

// More entries than a run has.
const MANY: usize = 100;

// Whether each reply of a history may be given, one after the other. The graph is the one after them then.
fn takes_all(alloc: Global, graph: &mut PlainGraph, history: &History) -> Result<bool, Fail>
    requires threads { threads_of graph.old ≡ 2 }
    requires count { (thread : ℕ) → (graph_of graph.old).count thread ≡ 0 }
    ensures threads { threads_of graph.new ≡ 2 }
    ensures made { OnOk result ((thread : ℕ) → (graph_of graph.new).count thread ≤ 100) }
{
    for at in 0..history.len().min(MANY) {
        let entry = history.entry(at);
        if !takes(alloc, graph, entry.thread, entry.command, entry.reply)? {
            return Ok(false);
        }
    }
    Ok(history.len() <= MANY)
}

fn first(count: u32) -> Reply {
    Reply::Ref(Name { thread: 1, count })
}

fn second(count: u32) -> Reply {
    Reply::Ref(Name { thread: 2, count })
}

const STAYED: [Row; 4] = [
    (
        WordName::Pin {
            mutator: 0,
            slot: 0,
        },
        128,
    ),
    (
        WordName::Pin {
            mutator: 0,
            slot: 1,
        },
        128,
    ),
    (WordName::Heap { address: 128 }, 1),
    (WordName::Free, 0),
];

// A pinned object is used in the collection set, and stays there when the cycle ends at once: a second slot gets the same place. Each
// reply may be given, and no other place may.
#[test]
fn a_pinned_object_stays_where_room_was_missing(rt: HostRuntime) -> Result<(), Fail> {
    let alloc = rt.alloc();
    let seen = play(alloc, &OUT_OF_ROOM)?;
    let pinned = Reply::At(128);
    let mine = [
        first(1),
        Reply::Ok,
        first(2),
        first(3),
        first(4),
        Reply::Ok,
        Reply::Ok,
        Reply::Ok,
        first(1),
        Reply::Ok,
        pinned,
        Reply::Number(7),
        pinned,
    ];
    assert!(rt; seen.answered(&[&mine, &[second(1), second(2)]]));
    seen.compare(&rt, &STAYED);
    let mut graph = PlainGraph::open(alloc, 2)?;
    assert!(rt; seen.history.len() == 15 && takes_all(alloc, &mut graph, &seen.history)?);
    let again = Command::Pin { slot: 2, obj: 1 };
    assert!(rt; !takes(alloc, &mut graph, 1, again, Reply::At(83))?);
    assert!(rt; takes(alloc, &mut graph, 1, again, pinned)?);
    Ok(())
}

// The header of four words that only fill is 18.
const FILLED: [Row; 6] = [
    (WordName::Heap { address: 128 }, 18),
    (WordName::Heap { address: 132 }, 1),
    (WordName::Heap { address: 135 }, 256),
    (WordName::Heap { address: 67 }, 256),
    (WordName::Heap { address: 68 }, 132),
    (WordName::Cset, 0),
];

// Beside a pinned object what has moved only fills, and the pinned object names the copy.
#[test]
fn what_has_moved_beside_a_pinned_object_only_fills(rt: HostRuntime) -> Result<(), Fail> {
    let alloc = rt.alloc();
    let seen = play(alloc, &BESIDE)?;
    let pinned = Reply::At(132);
    let mine = [
        first(1),
        Reply::Ok,
        first(2),
        Reply::Ok,
        Reply::Ok,
        first(3),
        first(4),
        first(5),
        Reply::Ok,
        Reply::Ok,
        Reply::Ok,
        first(2),
        pinned,
        first(1),
        Reply::Number(9),
        pinned,
    ];
    assert!(rt; seen.answered(&[&mine, &[first(1), Reply::Ok]]));
    seen.compare(&rt, &FILLED);
    let mut graph = PlainGraph::open(alloc, 2)?;
    assert!(rt; seen.history.len() == 18 && takes_all(alloc, &mut graph, &seen.history)?);
    Ok(())
}
