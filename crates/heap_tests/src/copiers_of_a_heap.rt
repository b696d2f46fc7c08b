use evac_room::laws::{Copiers, Copying, Wish};
use evac_room::{EnterEvac, LeaveEvac, OutOfRoom};
use heap_words::{Access, Config, Place};
use std::process::Abort;
use std::test::Fail;

const OUT_OF_ROOM: u64 = 1 << 63;

// A step of a copier: who, with which wish, what it says, and the word then.
type Step = (usize, Wish, Copying, u64);

// The first of three copiers finds no room while the second copies, and the third has looked at the counter and not raised
// it.
const NO_ROOM_BESIDE_ANOTHER: [Step; 14] = [
    (0, Wish::Enter, Copying::More, 0),
    (0, Wish::Enter, Copying::Inside, 1),
    (2, Wish::Enter, Copying::More, 1),
    (1, Wish::Enter, Copying::More, 1),
    (1, Wish::Enter, Copying::Inside, 2),
    (0, Wish::NoRoom, Copying::More, 2),
    (0, Wish::NoRoom, Copying::More, OUT_OF_ROOM + 1),
    (0, Wish::NoRoom, Copying::Again, OUT_OF_ROOM + 1),
    (2, Wish::Enter, Copying::Again, OUT_OF_ROOM + 1),
    (2, Wish::Enter, Copying::Again, OUT_OF_ROOM + 1),
    (1, Wish::Leave, Copying::Outside, OUT_OF_ROOM),
    (0, Wish::NoRoom, Copying::Stopped, OUT_OF_ROOM),
    (2, Wish::Enter, Copying::Stopped, OUT_OF_ROOM),
    (1, Wish::Enter, Copying::Stopped, OUT_OF_ROOM),
];

// Both copiers find no room, and the exchange of the second expects the bit of the first.
const TWO_WITHOUT_ROOM: [Step; 15] = [
    (0, Wish::Enter, Copying::More, 0),
    (1, Wish::Enter, Copying::More, 0),
    (0, Wish::Enter, Copying::Inside, 1),
    (1, Wish::Enter, Copying::Again, 1),
    (1, Wish::Enter, Copying::More, 1),
    (1, Wish::Enter, Copying::Inside, 2),
    (1, Wish::NoRoom, Copying::More, 2),
    (0, Wish::NoRoom, Copying::More, 2),
    (0, Wish::NoRoom, Copying::More, OUT_OF_ROOM + 1),
    (1, Wish::NoRoom, Copying::Again, OUT_OF_ROOM + 1),
    (0, Wish::NoRoom, Copying::Again, OUT_OF_ROOM + 1),
    (1, Wish::NoRoom, Copying::More, OUT_OF_ROOM + 1),
    (1, Wish::NoRoom, Copying::More, OUT_OF_ROOM),
    (0, Wish::NoRoom, Copying::Stopped, OUT_OF_ROOM),
    (1, Wish::NoRoom, Copying::Stopped, OUT_OF_ROOM),
];

// The copiers make the steps.
fn play(rt: &impl Abort, copiers: &mut Copiers, steps: &[Step]) {
    for (number, wish, says, word) in steps {
        assert!(rt; copiers.takes(*number, *wish));
        let said = copiers.step(*number, *wish);
        assert!(rt;
            said == *says && copiers.word() == *word,
            "{number} {wish:?}"
        );
    }
}

#[test]
fn lists_of_steps(rt: HostRuntime) -> Result<(), Fail> {
    let mut three = Copiers::open(rt.alloc(), 3)?;
    play(&rt, &mut three, &NO_ROOM_BESIDE_ANOTHER);
    assert!(rt; !three.takes(0, Wish::Leave));
    assert!(rt; !three.takes(3, Wish::Enter));
    let mut two = Copiers::open(rt.alloc(), 2)?;
    play(&rt, &mut two, &TWO_WITHOUT_ROOM);
    Ok(())
}

// The machines before their first step, in the smallest heap, whose counter is word 7.
#[test]
fn machines_by_themselves(rt: HostRuntime) -> Result<(), Fail> {
    let config = Config::new(4, 64, 1, 0, 0)?;
    let enter = EnterEvac::new(config);
    let leave = LeaveEvac::new(config);
    let stop = OutOfRoom::new(config);
    assert!(rt; [enter.place(), leave.place(), stop.place()] == [Place::XL, Place::XS, Place::OL]);
    let look = Access::Load { at: 7 };
    let lower = Access::Sub { at: 7, value: 1 };
    assert!(rt; [enter.plan(), leave.plan(), stop.plan()] == [look, lower, look]);
    Ok(())
}
