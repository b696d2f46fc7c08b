//! Machines step in threads of their own, and see each other's stores: what no script can see from outside.
use program_calls::shenrun;
use shen_base::{MemorySink, MemorySource};
use std::alloc::Global;
use std::sync::Wait;
use std::sync::atomic::{AtomicBool, AtomicU64, Ordering};
use std::test::Fail;
use std::thread;
use std::thread::Threads;
use table_heap::Gate;
use trace_runs::Status;

/// A gate that holds machine 0 in its first pass until machine 1 has passed so often. It notes where that does not come about.
#[derive(Drop)]
struct Held {
    wanted: u64,
    passed: [AtomicU64; 3],
    late: AtomicBool,
}

impl Held {
    fn until(wanted: u64) -> Held {
        Held {
            wanted,
            passed: [AtomicU64::new(0), AtomicU64::new(0), AtomicU64::new(0)],
            late: AtomicBool::new(false),
        }
    }

    fn hold(&self) {
        for _ in 0..100_000_000u64 {
            if self.passed[1].load(Ordering::SeqCst) >= self.wanted {
                return;
            }
            thread::yield_now();
        }
        self.late.store(true, Ordering::SeqCst);
    }

    /// Whether machine 0 was let go in time, and each of the first machines passed so often.
    fn has_seen(&self, machines: usize, passes: u64) -> bool {
        !self.late.load(Ordering::SeqCst)
            && self
                .passed
                .iter()
                .take(machines)
                .all(|it| it.load(Ordering::SeqCst) >= passes)
    }
}

impl Gate for Held {
    fn pass(&self, number: usize) {
        if number < 3 {
            let before = self.passed[number].fetch_add(1, Ordering::SeqCst);
            if number == 0 && before == 0 {
                self.hold();
            }
        }
    }
}

/// A gate at which a machine lets others go first now and then: by the numbers of a sequence of 2^64, of which each seed begins elsewhere.
#[derive(Drop)]
struct Yielding(AtomicU64);

impl Gate for Yielding {
    fn pass(&self, _number: usize) {
        let drawn = self.0.fetch_add(0x9E37_79B9_7F4A_7C15, Ordering::SeqCst);
        let mixed = drawn ^ (drawn >> 29) ^ (drawn >> 47);
        if mixed % 3 == 0 {
            for _ in 0..mixed % 5 {
                thread::yield_now();
            }
        }
    }
}

/// Runs the program behind the gate. What it writes is an answer, with status 0.
fn answer<R: Threads + Wait + Sync, G: Gate>(
    rt: &R,
    alloc: Global,
    words: &[&str],
    trace: &str,
    gate: &G,
) -> Result<Option<Vec<u8>>, Fail> {
    let mut list = Vec::new(alloc);
    for word in words {
        list.push(String::from_str(alloc, word)?)?;
    }
    let mut source = MemorySource::new(
        Vec::from_slice(alloc, trace.as_bytes())?,
        64,
        Vec::new(alloc),
    );
    let mut sink = MemorySink::with_room(alloc, 4096, 64, Vec::new(alloc))?;
    if shenrun(rt, alloc, &list, &mut source, &mut sink, gate) == Status::Ok {
        return Ok(Some(Vec::from_slice(alloc, sink.bytes())?));
    }
    Ok(None)
}

/// One machine makes its steps while the other stands at the gate. Each command takes six steps at least.
#[test]
fn gate_two_threads(rt: HostRuntime) -> Result<(), Fail> {
    let trace =
        "shen 1\nheap 8 64 0\nthreads 2 0\n1 new 1 0 0\n1 set 0 0 1\n1 get 2 0 1\n2 new 1 0 0\n2 set 0 1 1\n2 get 2 0 0\n";
    let gate = Held::until(1);
    let run = answer(&rt, rt.alloc(), &["run"], trace, &gate)?;
    assert!(rt; run.is_some());
    assert!(rt; gate.has_seen(2, 18));
    let gate = Held::until(1);
    let churn = answer(&rt, rt.alloc(), &["churn", "7", "10"], "", &gate)?;
    let summary =
        "churn 7 10\nthreads 3\ncommands 246\nbad 0\nfull 0\nobjects 34\nwords 328\nsum 375\n";
    assert!(rt; churn.is_some_and(|it| it.as_slice() == summary.as_bytes()));
    assert!(rt; gate.has_seen(3, 492));
    let gate = Held::until(1);
    let queue = answer(&rt, rt.alloc(), &["queue", "5"], "", &gate)?;
    let taken = "queue 5\nitems 10\nsum 15000030\n";
    assert!(rt; queue.is_some_and(|it| it.as_slice() == taken.as_bytes()));
    assert!(rt; gate.has_seen(3, 186));
    Ok(())
}

/// What one thread stores the other loads, where that one is held until the store is done.
#[test]
fn gate_orders(rt: HostRuntime) -> Result<(), Fail> {
    let trace =
        "shen 1\nheap 8 64 0\nthreads 2 0\n1 get 1 0 0\n2 new 1 0 0\n2 set 0 0 1\n2 copy 2 1\n";
    let gate = Held::until(30);
    let run = answer(&rt, rt.alloc(), &["run"], trace, &gate)?;
    assert!(rt; run.is_some_and(|it| it.as_slice().starts_with(b"1 2.1\n")));
    assert!(rt; gate.has_seen(1, 1));
    Ok(())
}

/// A trace, and all answers to it that are legal.
struct Raced {
    trace: &'static str,
    answers: &'static [&'static str],
}

// An object is evacuated while its thread loads and reads it and the other loads and writes it: the other comes before it is there, or
// before it is read, or behind. And two threads exchange null for an object of their own: one of them does.
const RACED: [Raced; 2] = [
    Raced {
        trace: "shen 1\nheap 8 64 0\nthreads 2 1\n1 new 1 0 1\n1 set 0 0 1\n1 new 2 16 16\n1 new 2 16 16\n1 drop 1\n1 drop 2\n1 gc\n1 get 1 0 0\n1 rd 1 0\n2 get 1 0 0\n2 wr 1 0 77\n",
        answers: &[
            "1 1.1\n1 ok\n1 1.2\n1 1.3\n1 ok\n1 ok\n1 ok\n1 1.1\n1 0\n2 -\n2 bad\ngraph\nobject 0.1 1.1 - - - - - - - - - - - - - - - /\nobject 1.1 / 0\nroots 1 0.1 1.1 - - - - - - - - - - - - - -\nroots 2 0.1 - - - - - - - - - - - - - - -\n",
            "1 1.1\n1 ok\n1 1.2\n1 1.3\n1 ok\n1 ok\n1 ok\n1 1.1\n1 0\n2 1.1\n2 ok\ngraph\nobject 0.1 1.1 - - - - - - - - - - - - - - - /\nobject 1.1 / 77\nroots 1 0.1 1.1 - - - - - - - - - - - - - -\nroots 2 0.1 1.1 - - - - - - - - - - - - - -\n",
            "1 1.1\n1 ok\n1 1.2\n1 1.3\n1 ok\n1 ok\n1 ok\n1 1.1\n1 77\n2 1.1\n2 ok\ngraph\nobject 0.1 1.1 - - - - - - - - - - - - - - - /\nobject 1.1 / 77\nroots 1 0.1 1.1 - - - - - - - - - - - - - -\nroots 2 0.1 1.1 - - - - - - - - - - - - - -\n",
        ],
    },
    Raced {
        trace: "shen 1\nheap 8 64 0\nthreads 2 1\n1 new 1 0 0\n1 gc\n1 cas 0 0 2 1\n2 new 1 0 0\n2 gc\n2 cas 0 0 2 1\n",
        answers: &[
            "1 1.1\n1 ok\n1 yes\n2 2.1\n2 ok\n2 no\ngraph\nobject 0.1 1.1 - - - - - - - - - - - - - - - /\nobject 1.1 /\nobject 2.1 /\nroots 1 0.1 1.1 - - - - - - - - - - - - - -\nroots 2 0.1 2.1 - - - - - - - - - - - - - -\n",
            "1 1.1\n1 ok\n1 no\n2 2.1\n2 ok\n2 yes\ngraph\nobject 0.1 2.1 - - - - - - - - - - - - - - - /\nobject 1.1 /\nobject 2.1 /\nroots 1 0.1 1.1 - - - - - - - - - - - - - -\nroots 2 0.1 2.1 - - - - - - - - - - - - - -\n",
        ],
    },
];

/// Wherever the threads let others go first, the answer is one of those that are legal.
#[test]
fn answers_are_legal_behind_a_gate_that_yields(rt: HostRuntime) -> Result<(), Fail> {
    for raced in &RACED {
        for seed in 0..16u64 {
            let gate = Yielding(AtomicU64::new(seed));
            let run = answer(&rt, rt.alloc(), &["run"], raced.trace, &gate)?;
            let mut legal = false;
            for allowed in raced.answers {
                legal |= run
                    .as_ref()
                    .is_some_and(|it| it.as_slice() == allowed.as_bytes());
            }
            assert!(rt; legal, "{seed}");
        }
    }
    Ok(())
}
