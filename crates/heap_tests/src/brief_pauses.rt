//! Brief pauses: where regions are larger than those of a trace, a pause that begins marking, or begins or ends the updating of references,
//! loads and stores few words, and of those of the heap it stores headers of buffers that are given up, and no other.
ghost use Rattle.std.specs.Prelude.{IfOk};
ghost use Rattle.shen_core.specs.State.{config_of};
ghost use Rattle.shen_core.specs.Progress.{CanRun};
ghost use Rattle.shen_core.specs.Agendas.{IsWalkOf};

use crate::collections::Row;
use crate::pins::{
    CONTROL_PAUSES, CONTROL_RESTS, FIRST, KEEP, MAKE_LARGE, MAKE_SMALL, Played, Run, SECOND,
    opened, schedule,
};
use heap_words::{Config, Item, Place, WordName};
use shen_core::{Seen, Walk};
use shen_graph::Command;
use std::alloc::Global;
use std::test::Fail;

const WRITE: Command = Command::Wr {
    obj: 1,
    index: 0,
    value: 7,
};

const DROP_SMALL: Command = Command::Drop { dst: 1 };

const DROP_LARGE: Command = Command::Drop { dst: 2 };

const GC: Command = Command::Gc;

// A region has 17 buffers. The second thread carves the first of region 1, at 2176, and takes four of its words. The first thread makes its
// small object at 2240, which field 0 of the hub names, and has then a large one in each buffer: 16 fill the region, and one lies in region 2,
// at 3264. So region 1 is nobody's in the end, and nearly all of it is garbage.
const CYCLE: Run = Run {
    region_words: 1_088,
    first: &[
        MAKE_SMALL, KEEP, WRITE, MAKE_LARGE, MAKE_LARGE, MAKE_LARGE, MAKE_LARGE, MAKE_LARGE,
        MAKE_LARGE, MAKE_LARGE, MAKE_LARGE, MAKE_LARGE, MAKE_LARGE, MAKE_LARGE, MAKE_LARGE,
        MAKE_LARGE, MAKE_LARGE, MAKE_LARGE, MAKE_LARGE, MAKE_LARGE, DROP_SMALL, DROP_LARGE, GC,
    ],
    second: &[MAKE_SMALL, DROP_SMALL],
    items: &[
        Item::Replies {
            number: SECOND,
            count: 2,
        },
        Item::Replies {
            number: FIRST,
            count: 23,
        },
        CONTROL_PAUSES,
        CONTROL_RESTS,
        CONTROL_PAUSES,
        CONTROL_RESTS,
        CONTROL_PAUSES,
        CONTROL_RESTS,
        CONTROL_PAUSES,
        CONTROL_RESTS,
    ],
};

// More steps than the run has.
const LONG: usize = 100_000;

// How many words a pause loads and stores, and how many of these accesses are of words of the heap.
#[derive(Clone, Copy, PartialEq)]
struct Pause {
    loads: u64,
    stores: u64,
    of_heap: u64,
}

const NONE: Pause = Pause {
    loads: 0,
    stores: 0,
    of_heap: 0,
};

// Of the image 21 words stand before those of the two mutators, which have 54; then come 136 words of marks, the 4,352 of the heap, and 9.
// The second thread's buffer is given up where marking begins, and the first one's where updating does: the control has carved another one
// behind it, for the copy of the small object.
const PAUSES: [Pause; 4] = [
    Pause {
        loads: 220,
        stores: 221,
        of_heap: 1,
    },
    Pause {
        loads: 4_572,
        stores: 4_572,
        of_heap: 8_704,
    },
    Pause {
        loads: 21,
        stores: 22,
        of_heap: 1,
    },
    Pause {
        loads: 21,
        stores: 21,
        of_heap: 0,
    },
];

// The header of 60 free words is 242, that of 29 is 118. The hub's field 0 names the copy, which has the number.
const LEFT: [Row; 7] = [
    (WordName::Phase, 0),
    (WordName::Current { seat: 0 }, 0),
    (WordName::Current { seat: 1 }, 0),
    (WordName::Heap { address: 2180 }, 242),
    (WordName::Heap { address: 3299 }, 118),
    (WordName::Heap { address: 1091 }, 3328),
    (WordName::Heap { address: 3331 }, 7),
];

// A pause with one access more, where a step makes one of the image.
fn counted(config: Config, pause: Pause, seen: Seen) -> Pause {
    let start = config.heap_start();
    let at = seen.access.at();
    let of_heap = start <= at && at < start + config.heap_size();
    let loads = seen.place == Place::PL;
    let stores = seen.place == Place::PS;
    Pause {
        loads: pause.loads.saturating_add(loads as u64),
        stores: pause.stores.saturating_add(stores as u64),
        of_heap: pause
            .of_heap
            .saturating_add((of_heap && (loads || stores)) as u64),
    }
}

// The run, step by step.
#[derive(Drop)]
struct Course {
    played: Played,
    walk: Walk,
}

impl Course {
    // Before the first step.
    fn open(alloc: Global, run: &Run) -> Result<Course, Fail>
        ensures { IfOk result (λ course. CanRun course.played.plain course.played.work × IsWalkOf (config_of course.played.plain) course.walk) }
    {
        let played = opened(alloc, run)?;
        let walk = Walk::open(schedule(alloc, played.plain.config(), run.items)?);
        Ok(Course { played, walk })
    }

    // Makes the next step, if there is one.
    fn goes_on(&mut self) -> Option<Seen>
        requires { CanRun self.old.played.plain self.old.played.work × IsWalkOf (config_of self.old.played.plain) self.old.walk }
        ensures { CanRun self.new.played.plain self.new.played.work × IsWalkOf (config_of self.new.played.plain) self.new.walk }
    {
        self.walk
            .next(&mut self.played.plain, &mut self.played.work)
    }

    // Makes all steps. What the pauses did, in their order.
    fn pauses(&mut self, alloc: Global) -> Result<Vec<Pause>, Fail>
        requires { CanRun self.old.played.plain self.old.played.work × IsWalkOf (config_of self.old.played.plain) self.old.walk }
    {
        let config = self.played.plain.config();
        let mut pauses = Vec::new(alloc);
        let mut pause = NONE;
        for _ in 0..LONG {
            let Some(seen) = self.goes_on() else {
                return Ok(pauses);
            };
            pause = counted(config, pause, seen);
            if seen.place == Place::P3 {
                pauses.push(pause)?;
                pause = NONE;
            }
        }
        Ok(pauses)
    }
}

// A cycle has three brief pauses, and one of all of the image, which ends marking; and two buffers are given up in brief ones.
#[test]
fn a_wide_heap_has_brief_pauses(rt: HostRuntime) -> Result<(), Fail> {
    let mut course = Course::open(rt.alloc(), &CYCLE)?;
    let pauses = course.pauses(rt.alloc())?;
    assert!(rt; pauses.as_slice() == PAUSES.as_slice());
    course.played.compare(&rt, &LEFT);
    Ok(())
}
