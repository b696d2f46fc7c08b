ghost use Rattle.std.specs.Prelude.{◌≡◌, ◌<◌, ◌≤◌, ◌^◌, ◌*◌, ◌+◌, Some, IfSome};
ghost use Rattle.shen_graph.specs.declared.command.Command.{Command};
ghost use Rattle.shen_graph.specs.Step.{IsNew};
ghost use Rattle.shen_graph.specs.Valid.{IsValid};
ghost use Rattle.managed_queue.specs.Spots.{MayCome};
ghost use Rattle.managed_queue.specs.Users.{left_in_plan, next_of, to_come, has_ended, used, plan_after, got_after, IsWithin, is_refused, chosen};
ghost use Rattle.managed_queue.specs.Users as users;

use crate::operation::{Choice, QueueReply};
use crate::spot::Spot;
use shen_graph::{Command, Driver, Reply};
use std::marker::Model;

/// What a user has left to do.
#[derive(Clone, Copy)]
pub enum Plan {
    /// So many puts, of `next`, `next + 1` and so on.
    Puts { next: u64, left: u64 },
    /// Takes, until so many of them got a number.
    Takes { left: u64 },
}

/// What a user's takes got.
#[derive(Clone, Copy, Debug, PartialEq, Eq)]
pub struct Gotten {
    /// How many numbers.
    pub items: u64,
    /// Their sum.
    pub sum: u128,
}

impl Plan {
    // The operation that comes next.
    fn choice(&self) -> Choice
        ensures { result ≡ chosen self.now }
    {
        match *self {
            Plan::Puts { next, .. } => Choice::Put(next),
            Plan::Takes { .. } => Choice::Take,
        }
    }

    // How many operations are left.
    fn left(&self) -> u64
        ensures { result ≡ left_in_plan self.now }
    {
        match *self {
            Plan::Puts { left, .. } | Plan::Takes { left } => left,
        }
    }
}

/// A thread that sets the queue up or joins it, and then puts numbers or takes some.
#[derive(Drop)]
pub struct User {
    spot: Spot,
    plan: Plan,
    got: Gotten,
    refused: bool,
}

impl Model for User {
    ghost use Rattle.managed_queue.specs.Users.{Use, IsWithin};

    ghost Value = { Use };

    ghost view = { λ user. record { spot = user.spot; plan = user.plan; got = user.got; refused = user.refused } };

    ghost invariant = { λ user. IsWithin user.plan user.got };
}

impl User {
    /// A user that puts `count` numbers, `first`, `first + 1` and so on. It sets the queue up, or joins.
    pub fn putter(sets_up: bool, first: u64, count: u64) -> User
        requires first { first < 2 ^ 63 }
        requires count { count ≤ 390 }
        ensures { result ≡ users.putter sets_up first count }
    {
        let spot = if sets_up {
            Spot::MakesAnchor
        } else {
            Spot::Joins
        };
        User {
            spot,
            plan: Plan::Puts {
                next: first,
                left: count,
            },
            got: Gotten { items: 0, sum: 0 },
            refused: false,
        }
    }

    /// A user that joins, and takes until `count` of its takes got a number.
    pub fn taker(count: u64) -> User
        requires { count ≤ 390 }
        ensures { result ≡ users.taker count }
    {
        User {
            spot: Spot::Joins,
            plan: Plan::Takes { left: count },
            got: Gotten { items: 0, sum: 0 },
            refused: false,
        }
    }

    /// How many numbers its takes got, and their sum.
    pub fn got(&self) -> Gotten
        ensures { result ≡ self.now.got }
    {
        self.got
    }

    // Goes on by a reply, unless it has ended.
    fn go_on(&mut self, reply: &Reply)
        ensures { self.new ≡ used self.old reply.now }
    {
        if self.has_ended() {
            return;
        }
        let choice = self.plan.choice();
        let command = self.spot.next(choice);
        let answer = self.spot.answer(reply);
        self.refused = was_refused(&command, reply);
        self.spot = self.spot.after(choice, reply);
        let (plan, got) = (self.plan, self.got);
        self.got = got_next(plan, got, answer);
        self.plan = plan_next(plan, got, answer);
    }

    // Whether it has no next command.
    fn has_ended(&self) -> bool
        ensures { result ≡ has_ended self.now }
    {
        let through = self.plan.left() == 0;
        self.refused || (is_rest(&self.spot) && through)
    }
}

/// One that only joins.
impl Default for User {
    fn default() -> User
        ensures { result ≡ users.taker 0 }
    {
        User::taker(0)
    }
}

/// It goes on by the table, and no reply raises the number of allocations to come.
impl Driver for User {
    ghost use Rattle.managed_queue.specs.Users as users;

    ghost next_of = { users.next_of };

    ghost replied = { users.used };

    ghost to_come = { users.to_come };

    /// Its next command; `None` when it has done all, or an allocation was refused.
    fn next(&self) -> Option<Command>
        ensures next { result ≡ next_of self.now }
        ensures table { IfSome result (λ command. MayCome self.now.spot command) }
        ensures valid { IfSome result (λ command. IsValid command) }
        ensures due { IfSome result (λ command. IsNew command → 1 ≤ to_come self.now) }
    {
        if self.has_ended() {
            return None;
        }
        Some(self.spot.next(self.plan.choice()))
    }

    /// Takes the reply to that command. One that has ended stays.
    fn took(&mut self, reply: &Reply)
        ensures replied { self.new ≡ used self.old reply.now }
        ensures falls { to_come self.new ≤ to_come self.old }
        ensures pays { (command : Command) → next_of self.old ≡ Some command → IsNew command → to_come self.new < to_come self.old }
    {
        self.go_on(reply);
    }
}

fn is_rest(spot: &Spot) -> bool
    ensures { result ≡ users.is_rest spot.now }
{
    match *spot {
        Spot::Rests => true,
        _ => false,
    }
}

fn was_refused(command: &Command, reply: &Reply) -> bool
    ensures { result ≡ is_refused command.now reply.now }
{
    match (*command, *reply) {
        (Command::New { .. }, Reply::Full) => true,
        _ => false,
    }
}

// What is left to do after an operation that ended.
fn plan_next(plan: Plan, got: Gotten, answer: Option<QueueReply>) -> Plan
    requires { IsWithin plan got }
    ensures { result ≡ plan_after plan answer }
{
    match (plan, answer) {
        (Plan::Puts { next, left }, Some(QueueReply::Put)) if left > 0 => Plan::Puts {
            next: next + 1,
            left: left - 1,
        },
        (Plan::Takes { left }, Some(QueueReply::Got(_))) => Plan::Takes {
            left: left.saturating_sub(1),
        },
        _ => plan,
    }
}

// What is got after it.
fn got_next(plan: Plan, got: Gotten, answer: Option<QueueReply>) -> Gotten
    requires { IsWithin plan got }
    ensures { result ≡ got_after plan got answer }
{
    match (plan, answer) {
        (Plan::Takes { left }, Some(QueueReply::Got(value))) if left > 0 => Gotten {
            items: got.items + 1,
            sum: got.sum + value as u128,
        },
        _ => got,
    }
}
