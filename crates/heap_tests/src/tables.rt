//! Which machine is stopped, where, and what comes of it.
ghost use Rattle.std.specs.Prelude.{IfOk};
ghost use Rattle.shen_core.specs.Progress.{CanRun};
ghost use Rattle.shen_core.specs.State.{config_of};
ghost use Rattle.shen_core.specs.Agendas.{IsWalkOf};

use crate::scene::{Case, Scene};
use crate::shared::Shared;
use heap_words::{Item, Place, name_word, next_of};
use shen_core::Stepped;
use shen_graph::{Command, Name, Reply};
use std::alloc::Global;
use std::process::Abort;
use std::test::Fail;

// The first object of thread 1, at address 128, has one number; field 0 of the hub names it. Behind it lies garbage, so its region is
// the collection set.
const MAKE_SMALL: Command = Command::New {
    dst: 1,
    refs: 0,
    nums: 1,
};

const MAKE_LARGE: Command = Command::New {
    dst: 2,
    refs: 16,
    nums: 16,
};

const MAKE_MIDDLE: Command = Command::New {
    dst: 2,
    refs: 16,
    nums: 7,
};

const KEEP: Command = Command::Set {
    obj: 0,
    field: 0,
    val: 1,
};

const FIND: Command = Command::Get {
    dst: 1,
    src: 0,
    field: 0,
};

const READ: Command = Command::Rd { obj: 1, index: 0 };

const DROP_SMALL: Command = Command::Drop { dst: 1 };

const DROP_LARGE: Command = Command::Drop { dst: 2 };

// The objects of the first thread.
const SMALL: Reply = Reply::Ref(Name {
    thread: 1,
    count: 1,
});

const SECOND: Reply = Reply::Ref(Name {
    thread: 1,
    count: 2,
});

const THIRD: Reply = Reply::Ref(Name {
    thread: 1,
    count: 3,
});

const FOURTH: Reply = Reply::Ref(Name {
    thread: 1,
    count: 4,
});

// The control goes on until it is about to claim the first region that is evacuated.
const CONTROL_CLAIMS: Item = Item::Until {
    number: 2,
    place: Place::EC,
};

// Two threads load the object while it is evacuated; the second writes 77 into it, and the first reads it.
const RACE: Case = Case {
    regions: 8,
    scripts: &[
        &[
            MAKE_SMALL,
            KEEP,
            MAKE_LARGE,
            MAKE_LARGE,
            DROP_SMALL,
            DROP_LARGE,
            Command::Gc,
            FIND,
            READ,
        ],
        &[
            FIND,
            Command::Wr {
                obj: 1,
                index: 0,
                value: 77,
            },
        ],
    ],
    before: &[
        Item::Replies {
            number: 0,
            count: 7,
        },
        CONTROL_CLAIMS,
    ],
    stopped: 0,
    after: &[
        Item::Replies {
            number: 1,
            count: 2,
        },
        Item::Replies {
            number: 0,
            count: 9,
        },
    ],
    replies: &[
        &[
            SMALL,
            Reply::Ok,
            SECOND,
            THIRD,
            Reply::Ok,
            Reply::Ok,
            Reply::Ok,
            SMALL,
            Reply::Number(77),
        ],
        &[SMALL, Reply::Ok],
    ],
};

// Where the first thread is stopped, and, behind the schedule, the object's header and the first free word of that thread's buffer, which
// is region 2. Up to its exchange the second thread is faster, copies the object to address 256, in region 3, and the first takes back its
// room above the 35 words of its buffer; from then on the first has copied it to 227, behind these words. A header names an address by
// four times it and 3.
const STOPS_OF_RACE: [(Place, u64, u64); 14] = [
    (Place::HL, 1027, 227),
    (Place::XL, 1027, 227),
    (Place::XC, 1027, 227),
    (Place::SL, 1027, 227),
    (Place::TC, 1027, 227),
    (Place::TS, 1027, 227),
    (Place::CL, 1027, 227),
    (Place::CP, 1027, 227),
    (Place::HI, 1027, 227),
    (Place::HX, 1027, 227),
    (Place::XS, 911, 231),
    (Place::NM, 911, 231),
    (Place::RS, 911, 231),
    (Place::LV, 911, 231),
];

// There is no room for the first thread's copy, and the second thread, which copies, has the last free region.
const NO_ROOM: Case = Case {
    regions: 4,
    scripts: &[
        &[
            MAKE_SMALL,
            KEEP,
            MAKE_LARGE,
            MAKE_LARGE,
            MAKE_MIDDLE,
            DROP_SMALL,
            DROP_LARGE,
            Command::Gc,
            FIND,
            READ,
        ],
        &[
            FIND,
            Command::Wr {
                obj: 1,
                index: 0,
                value: 9,
            },
        ],
    ],
    before: &[
        Item::Replies {
            number: 0,
            count: 8,
        },
        CONTROL_CLAIMS,
    ],
    stopped: 1,
    after: &[
        Item::Until {
            number: 0,
            place: Place::XW,
        },
        Item::Steps {
            number: 0,
            count: 3,
        },
        Item::Replies {
            number: 1,
            count: 2,
        },
        Item::Replies {
            number: 0,
            count: 10,
        },
    ],
    replies: &[
        &[
            SMALL,
            Reply::Ok,
            SECOND,
            THIRD,
            FOURTH,
            Reply::Ok,
            Reply::Ok,
            Reply::Ok,
            SMALL,
            Reply::Number(9),
        ],
        &[SMALL, Reply::Ok],
    ],
};

// The thread ends while the control stands in a cycle.
const END: Case = Case {
    regions: 8,
    scripts: &[&[
        MAKE_SMALL,
        Command::Wr {
            obj: 1,
            index: 0,
            value: 6,
        },
        KEEP,
        MAKE_LARGE,
        MAKE_LARGE,
        DROP_SMALL,
        DROP_LARGE,
        Command::Gc,
    ]],
    before: &[Item::Replies {
        number: 0,
        count: 8,
    }],
    stopped: 1,
    after: &[],
    replies: &[&[
        SMALL,
        Reply::Ok,
        Reply::Ok,
        SECOND,
        THIRD,
        Reply::Ok,
        Reply::Ok,
        Reply::Ok,
    ]],
};

// Where the control is stopped. At the end: the phase, the object's header, and field 0 of the hub. From where it evacuates the region of
// the object on, the copy is at address 256, and it has updated the field only in phase 3.
const STOPS_OF_END: [(Place, u64, u64, u64); 6] = [
    (Place::MC, 1, 1, 128),
    (Place::EC, 2, 1, 128),
    (Place::ES, 2, 1027, 128),
    (Place::XS, 2, 1027, 128),
    (Place::UC, 3, 1027, 256),
    (Place::UX, 3, 1027, 256),
];

// The heap's word of an address, if there is one; the first address is 64.
fn heap_word(scene: &Scene, address: usize) -> Option<u64> {
    let offset = address.checked_sub(64)?;
    scene.word(scene.config().heap_start().checked_add(offset)?)
}

// The first free word of a seat's buffer, if there is such a seat.
fn next_of_seat(scene: &Scene, seat: usize) -> Option<u64> {
    let config = scene.config();
    if seat < config.seats() {
        let buffer = scene.word(config.cur_at(seat))?;
        Some(next_of(buffer))
    } else {
        None
    }
}

// The steps of a scene again, of machines that lie in a bundle: they say the same, and the threads are answered the same.
fn repeat(rt: &impl Abort, alloc: Global, case: &Case, scene: &Scene) -> Result<(), Fail> {
    let mut shared = Shared::open(alloc, case)?;
    for turn in scene.turns() {
        assert!(rt; shared.repeats(*turn), "{turn:?}");
    }
    assert!(rt; shared.answered(case.replies));
    Ok(())
}

// A case up to where its machine is stopped.
fn stopped(rt: &impl Abort, alloc: Global, case: &Case, place: Place) -> Result<Scene, Fail>
    ensures { IfOk result (λ scene. CanRun scene.plain scene.work × IsWalkOf (config_of scene.plain) scene.walk) }
{
    let mut scene = Scene::open(alloc, case, place)?;
    scene.goes_to(case.before.len().saturating_add(1))?;
    assert!(rt; scene.place(case.stopped) == Some(place), "{place:?}");
    Ok(scene)
}

// A case to its end.
fn ends(rt: &impl Abort, alloc: Global, case: &Case, scene: &mut Scene) -> Result<(), Fail>
    requires { CanRun scene.old.plain scene.old.work × IsWalkOf (config_of scene.old.plain) scene.old.walk }
    ensures { CanRun scene.new.plain scene.new.work × IsWalkOf (config_of scene.new.plain) scene.new.walk }
{
    assert!(rt; scene.ends()?);
    assert!(rt; scene.answered(case.replies));
    repeat(rt, alloc, case, scene)
}

#[test]
fn a_thread_that_copies_is_stopped_anywhere(rt: HostRuntime) -> Result<(), Fail> {
    for (place, header, next) in STOPS_OF_RACE {
        let mut scene = stopped(&rt, rt.alloc(), &RACE, place)?;
        scene.goes_to(5)?;
        let seen = (heap_word(&scene, 128), next_of_seat(&scene, 0));
        assert!(rt; seen == (Some(header), Some(next)), "{place:?}");
        ends(&rt, rt.alloc(), &RACE, &mut scene)?;
    }
    Ok(())
}

// The first thread waits in each of its three steps, sets bit 63 of the word of the copiers, and nobody copies any more at the end.
#[test]
fn a_thread_without_room_waits_for_a_copier(rt: HostRuntime) -> Result<(), Fail> {
    for place in [Place::CL, Place::CP, Place::HI, Place::HX] {
        let mut scene = stopped(&rt, rt.alloc(), &NO_ROOM, place)?;
        scene.goes_to(4)?;
        assert!(rt; scene.place(0) == Some(Place::XW) && scene.place(1) == Some(place));
        let before = scene.turns().len();
        scene.goes_to(5)?;
        let waited = scene.turns();
        assert!(rt; waited.len().saturating_sub(before) == 3);
        for turn in waited.iter().skip(before) {
            assert!(rt; (turn.number, turn.place, turn.said) == (0, Place::XW, Stepped::Again));
        }
        scene.goes_to(7)?;
        let copiers = scene.config().evac_at();
        let seen = (heap_word(&scene, 128), scene.word(copiers));
        assert!(rt; seen == (Some(1027), Some(1 << 63)), "{place:?}");
        ends(&rt, rt.alloc(), &NO_ROOM, &mut scene)?;
    }
    Ok(())
}

// The graph at the end: the hub, at address 64, names the object in field 0 and nothing else, the object has the thread's first name and
// the number 6, and root 0 alone is not null, and names the hub.
#[test]
fn a_thread_ends_in_a_cycle(rt: HostRuntime) -> Result<(), Fail> {
    for (place, phase, header, field) in STOPS_OF_END {
        let mut scene = stopped(&rt, rt.alloc(), &END, place)?;
        ends(&rt, rt.alloc(), &END, &mut scene)?;
        let phase_at = scene.config().phase_at();
        let seen = (
            scene.word(phase_at),
            heap_word(&scene, 128),
            heap_word(&scene, 67),
        );
        assert!(rt;
            seen == (Some(phase), Some(header), Some(field)),
            "{place:?}"
        );
        let copy: usize = if header == 1 { 128 } else { 256 };
        let object = (
            heap_word(&scene, copy),
            heap_word(&scene, copy + 2),
            heap_word(&scene, copy + 3),
        );
        assert!(rt;
            object == (Some(1), Some(name_word(1, 1)), Some(6)),
            "{place:?}"
        );
        let roots = scene.config().roots_start();
        assert!(rt; scene.word(roots) == Some(64));
        for other in 1..16usize {
            assert!(rt; heap_word(&scene, 67 + other) == Some(0));
            assert!(rt; scene.word(roots.saturating_add(other)) == Some(0));
        }
    }
    Ok(())
}
