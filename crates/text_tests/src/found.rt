//! A test of interleavings that is read, and how its thread goes on.
use find_play::{
    Claim, Next, Place, Statement, Test, TestFault, TestWhy, Thread, Wanted, read_test,
};
use shen_base::PlainSource;
use shen_graph::{Command, Name, Reply};
use std::alloc::{AllocError, Global};
use std::test::Fail;

const PUSH: &str = "shen 1
heap 4 64 1
threads 1 0
bounds 2 400 1
note put
place first hub 0
place second first 1
thread
root top
root node
new node 2 1
loop
get top hub 0
if null
drop top
else
set node 0 top
end
cas hub 0 top node
keep put
until yes
end
gc
assert
is yes put
or
chain second 0 7
number first 3 18446744073709551615
";

// The test that a text is, and what is refused of it.
fn test_in(alloc: Global, text: &str) -> Result<Result<Test, TestFault>, AllocError> {
    let mut source = PlainSource::new(text.as_bytes().to_vec(alloc)?);
    Ok(read_test(alloc, &mut source))
}

fn push(alloc: Global) -> Result<Test, AllocError> {
    match test_in(alloc, PUSH)? {
        Ok(test) => Ok(test),
        Err(_) => Err(AllocError),
    }
}

// A thread pins the hub, and what it is answered is a place.
const PINS: &str = "shen 2
heap 4 64 1
threads 1 0
bounds 2 400 1
note first
thread
pin 3 hub
keep first
unpin 3
assert
is pinned first
";

// The same in version 1, up to its first pin, and up to what is claimed.
const NO_PIN: &str = "shen 1\nheap 4 64 1\nthreads 1 0\nbounds 2 400 1\nthread\npin 3 hub\n";

const NO_PLACE: &str =
    "shen 1\nheap 4 64 1\nthreads 1 0\nbounds 2 400 1\nthread\nassert\nnever pinned\n";

const STATEMENTS: [Statement; 3] = [
    Statement::Run(Command::Pin { slot: 3, obj: 0 }),
    Statement::Keep { note: 0 },
    Statement::Run(Command::Unpin { slot: 3 }),
];

#[test]
fn a_test_of_version_2_can_pin(rt: HostRuntime) -> Result<(), Fail> {
    let Ok(test) = test_in(rt.alloc(), PINS)? else {
        assert!(rt; false);
        return Ok(());
    };
    let [program] = test.programs.as_slice() else {
        assert!(rt; false);
        return Ok(());
    };
    let wanted = Wanted::Pinned;
    assert!(rt; test.version == 2 && program.list() == STATEMENTS.as_slice());
    assert!(rt;
        matches!(
            test.claims.as_slice(),
            [
                Claim::Assert,
                Claim::Is {
                    wanted: Wanted::Pinned,
                    note: 0
                }
            ]
        )
    );
    assert!(rt; wanted.fits(Reply::At(64)) && !wanted.fits(Reply::Number(64)));
    Ok(())
}

#[test]
fn a_test_of_version_1_cannot(rt: HostRuntime) -> Result<(), Fail> {
    let pin = test_in(rt.alloc(), NO_PIN)?.err();
    let place = test_in(rt.alloc(), NO_PLACE)?.err();
    assert!(rt;
        pin == Some(TestFault::BadLine {
            line: 6,
            why: TestWhy::Line
        })
    );
    assert!(rt;
        place
            == Some(TestFault::BadLine {
                line: 7,
                why: TestWhy::Reply
            })
    );
    Ok(())
}

const PLACES: [Place; 2] = [Place { from: 0, field: 0 }, Place { from: 1, field: 1 }];

const CLAIMS: [Claim; 5] = [
    Claim::Assert,
    Claim::Is {
        wanted: Wanted::Yes,
        note: 0,
    },
    Claim::Or,
    Claim::Chain {
        place: 2,
        field: 0,
        length: 7,
    },
    Claim::Number {
        place: 1,
        index: 3,
        value: u64::MAX,
    },
];

#[test]
fn a_test_has_its_places_and_claims(rt: HostRuntime) -> Result<(), Fail> {
    let test = push(rt.alloc())?;
    assert!(rt;
        test.bounds.preemptions == 2 && test.bounds.steps == 400 && test.bounds.returns == 1
    );
    assert!(rt;
        test.places.as_slice() == PLACES.as_slice() && test.claims.as_slice() == CLAIMS.as_slice()
    );
    Ok(())
}

const NEW: Next = Next::Command(Command::New {
    dst: 2,
    refs: 2,
    nums: 1,
});

const GET: Next = Next::Command(Command::Get {
    dst: 1,
    src: 0,
    field: 0,
});

const SET: Next = Next::Command(Command::Set {
    obj: 2,
    field: 0,
    val: 1,
});

const CAS: Next = Next::Command(Command::Cas {
    obj: 0,
    field: 0,
    expect: 1,
    val: 2,
});

const NODE: Option<Reply> = Some(Reply::Ref(Name {
    thread: 1,
    count: 1,
}));

// The last reply, and what the thread does then.
const STEPS: [(Option<Reply>, Next); 9] = [
    (None, NEW),
    (NODE, GET),
    (Some(Reply::Null), Next::Command(Command::Drop { dst: 1 })),
    (Some(Reply::Ok), CAS),
    (Some(Reply::No), Next::Keep(0)),
    (Some(Reply::No), GET),
    (NODE, SET),
    (Some(Reply::Ok), CAS),
    (Some(Reply::No), Next::Keep(0)),
];

// Its steps where the reply that it noted last is `yes`.
const ENDS: [(Option<Reply>, Next); 3] = [
    (Some(Reply::Yes), Next::Command(Command::Gc)),
    (Some(Reply::Ok), Next::Done),
    (Some(Reply::Ok), Next::Done),
];

#[test]
fn a_thread_goes_round_its_loop_until_its_reply_or_too_often(rt: HostRuntime) -> Result<(), Fail> {
    let test = push(rt.alloc())?;
    let [program] = test.programs.as_slice() else {
        assert!(rt; false);
        return Ok(());
    };
    let mut thread = Thread::start(test.bounds.returns);
    for (reply, next) in &STEPS {
        assert!(rt; thread.next(program.list(), *reply) == *next);
    }
    let mut other = thread;
    for (reply, next) in &ENDS {
        assert!(rt; other.next(program.list(), *reply) == *next);
    }
    assert!(rt; thread.next(program.list(), Some(Reply::No)) == Next::TooLong);
    Ok(())
}
