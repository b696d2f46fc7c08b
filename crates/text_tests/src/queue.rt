//! The queue's operations by hand, on a plain graph: a take helps a put that is stopped between its two exchanges.
ghost use Rattle.std.specs.Prelude.{◌≡◌, ◌≤◌, false};
ghost use Rattle.shen_graph.specs.Step.{IsPin};

use managed_queue::{Put, QueueReply, Take, User};
use shen_graph::{Command, Driver, Name, PlainGraph, Reply};
use std::test::Fail;

const ANCHOR: Name = Name {
    thread: 1,
    count: 1,
};

const EMPTY: Name = Name {
    thread: 1,
    count: 2,
};

const FIVE: Name = Name {
    thread: 1,
    count: 3,
};

// Who goes on. Thread 1 has the set-up and the put, thread 2 all others.
#[derive(Clone, Copy, PartialEq, Eq)]
enum Who {
    SetsUp,
    Joins,
    TakesNone,
    Puts,
    TakesFive,
}

const ROWS: [(Who, Reply); 27] = [
    (Who::SetsUp, Reply::Ref(ANCHOR)),
    (Who::SetsUp, Reply::Ref(EMPTY)),
    // The anchor is not shown yet.
    (Who::Joins, Reply::Null),
    (Who::SetsUp, Reply::Ok),
    (Who::SetsUp, Reply::Ok),
    (Who::SetsUp, Reply::Ok),
    (Who::Joins, Reply::Ref(ANCHOR)),
    // Nothing follows the head, and it is the tail.
    (Who::TakesNone, Reply::Ref(EMPTY)),
    (Who::TakesNone, Reply::Ref(EMPTY)),
    (Who::TakesNone, Reply::Null),
    (Who::TakesNone, Reply::Yes),
    // The node is linked, and the tail lags behind.
    (Who::Puts, Reply::Ref(FIVE)),
    (Who::Puts, Reply::Ok),
    (Who::Puts, Reply::Ref(EMPTY)),
    (Who::Puts, Reply::Null),
    (Who::Puts, Reply::Yes),
    // The take moves the tail.
    (Who::TakesFive, Reply::Ref(EMPTY)),
    (Who::TakesFive, Reply::Ref(EMPTY)),
    (Who::TakesFive, Reply::Ref(FIVE)),
    (Who::TakesFive, Reply::Yes),
    (Who::TakesFive, Reply::Yes),
    // Another turn.
    (Who::TakesFive, Reply::Ref(EMPTY)),
    (Who::TakesFive, Reply::Ref(FIVE)),
    (Who::TakesFive, Reply::Ref(FIVE)),
    (Who::TakesFive, Reply::No),
    (Who::TakesFive, Reply::Number(5)),
    (Who::TakesFive, Reply::Yes),
];

#[derive(Drop)]
struct Players {
    sets_up: User,
    joins: User,
    takes_none: Take,
    puts: Put,
    takes_five: Take,
}

impl Players {
    fn new() -> Players {
        Players {
            sets_up: User::putter(true, 0, 0),
            joins: User::taker(0),
            takes_none: Take::new(),
            puts: Put::new(5),
            takes_five: Take::new(),
        }
    }

    fn next(&self, who: Who) -> Option<Command> {
        match who {
            Who::SetsUp => self.sets_up.next(),
            Who::Joins => self.joins.next(),
            Who::TakesNone => next_of_take(&self.takes_none),
            Who::Puts => next_of_put(&self.puts),
            Who::TakesFive => next_of_take(&self.takes_five),
        }
    }

    fn took(&mut self, who: Who, reply: &Reply) {
        match who {
            Who::SetsUp => self.sets_up.took(reply),
            Who::Joins => self.joins.took(reply),
            Who::TakesNone => self.takes_none.took(reply),
            Who::Puts => self.puts.took(reply),
            Who::TakesFive => self.takes_five.took(reply),
        }
    }
}

fn next_of_take(take: &Take) -> Option<Command> {
    match take.done() {
        Some(_) => None,
        None => Some(take.next()),
    }
}

fn next_of_put(put: &Put) -> Option<Command> {
    match put.done() {
        Some(_) => None,
        None => Some(put.next()),
    }
}

fn is_pin(command: &Command) -> bool
    ensures { result ≡ false → IsPin command.now → ⊥ }
{
    match command {
        Command::Pin { .. } => true,
        _ => false,
    }
}

fn thread_of(who: Who) -> u32
    ensures low { 1 ≤ result }
    ensures high { result ≤ 2 }
{
    match who {
        Who::SetsUp | Who::Puts => 1,
        _ => 2,
    }
}

#[test]
fn a_take_helps_a_put_that_is_stopped(rt: HostRuntime) -> Result<(), Fail> {
    let alloc = rt.alloc();
    let mut plain = PlainGraph::open(alloc, 2)?;
    let mut players = Players::new();
    for row in &ROWS {
        let (who, expected) = *row;
        let command = players.next(who).expect(&rt, "it is not done");
        assert!(rt; command.is_valid() && !is_pin(&command));
        let reply = plain.apply(alloc, thread_of(who), &command)?;
        assert!(rt; reply == expected);
        players.took(who, &reply);
    }
    assert!(rt; players.sets_up.next().is_none() && players.joins.next().is_none());
    assert!(rt; players.takes_none.done() == Some(QueueReply::Empty));
    assert!(rt; players.takes_five.done() == Some(QueueReply::Got(5)));
    // The put finds that the tail was moved.
    let last = next_of_put(&players.puts).expect(&rt, "it is not done");
    assert!(rt; last.is_valid() && !is_pin(&last));
    let reply = plain.apply(alloc, 1, &last)?;
    assert!(rt; reply == Reply::No);
    players.puts.took(&reply);
    assert!(rt; players.puts.done() == Some(QueueReply::Put));
    Ok(())
}
