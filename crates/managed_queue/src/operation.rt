ghost use Rattle.std.specs.Prelude.{◌≡◌, Some, None};
ghost use Rattle.shen_graph.specs.Valid.{IsValid};
ghost use Rattle.managed_queue.specs.Spots.{MayCome};
ghost use Rattle.managed_queue.specs.Spots as spots;
ghost use Rattle.managed_queue.specs.declared.operation.Choice.TheVariants as choice;
ghost use Rattle.managed_queue.specs.Machines.{command_coming, first_command, number_put, untouched, replied};

use crate::spot::Spot;
use shen_graph::{Command, Reply};
use std::marker::Model;

/// What an operation of the queue answers.
#[derive(Clone, Copy, Debug, PartialEq, Eq)]
pub enum QueueReply {
    /// The number was put.
    Put,
    /// The first number, which was taken.
    Got(u64),
    /// There was none to take.
    Empty,
    /// The heap had no room for a node: nothing was put.
    Full,
}

/// Which operation it is.
#[derive(Clone, Copy, Debug, PartialEq, Eq)]
pub enum Choice {
    /// A put of this number.
    Put(u64),
    /// A take.
    Take,
}

impl Choice {
    // The command that begins it.
    pub(crate) fn first_command(self) -> Command
        ensures { result ≡ first_command self }
    {
        match self {
            Choice::Put(_) => Command::New {
                dst: 3,
                refs: 1,
                nums: 1,
            },
            Choice::Take => Command::Get {
                dst: 4,
                src: 1,
                field: 0,
            },
        }
    }

    // Where the reply to it leads.
    pub(crate) fn after_first(self, reply: &Reply) -> Spot
        ensures { result ≡ spots.after_rest (first_command self) reply.now }
    {
        match (self, *reply) {
            (Choice::Put(_), Reply::Full) => Spot::Rests,
            (Choice::Put(_), _) => Spot::Fills,
            (Choice::Take, _) => Spot::TookHead,
        }
    }

    // The number that it puts.
    pub(crate) fn number(self) -> u64
        ensures { result ≡ number_put self }
    {
        match self {
            Choice::Put(value) => value,
            Choice::Take => 0,
        }
    }
}

/// An operation in its course.
#[derive(Clone, Copy)]
pub struct Course {
    /// Which operation it is.
    pub choice: Choice,
    /// Where it stands.
    pub spot: Spot,
    /// What it answered, once it has.
    pub done: Option<QueueReply>,
}

impl Course {
    /// An operation of which nothing was done.
    pub(crate) fn new(choice: Choice) -> Course
        ensures { result ≡ untouched choice }
    {
        Course {
            choice,
            spot: Spot::Rests,
            done: None,
        }
    }

    /// Goes on by the reply to its command. One that has answered stays.
    pub(crate) fn took(self, reply: &Reply) -> Course
        ensures { result ≡ replied self reply.now }
    {
        match self.done {
            Some(_) => self,
            None => Course {
                choice: self.choice,
                spot: self.spot.after(self.choice, reply),
                done: self.spot.answer(reply),
            },
        }
    }
}

/// A put into the queue, by a thread that has joined: root 1 names the anchor, and root 7 is null. Uses roots 3, 4 and 5.
#[derive(Drop)]
pub struct Put {
    course: Course,
}

impl Model for Put {
    ghost use Rattle.managed_queue.specs.declared.operation.Course.{Course};

    ghost Value = { Course };

    ghost view = { λ operation. operation.course };
}

impl Put {
    /// A put of a number.
    pub fn new(value: u64) -> Put
        ensures { result ≡ untouched (choice.Put value) }
    {
        Put {
            course: Course::new(Choice::Put(value)),
        }
    }

    /// Its next command.
    pub fn next(&self) -> Command
        requires { self.now.done ≡ None }
        ensures table { MayCome self.now.spot result }
        ensures chosen { result ≡ command_coming self.now.choice self.now.spot }
        ensures valid { IsValid result }
    {
        self.course.spot.next(self.course.choice)
    }

    /// Takes the reply to that command. One that is done stays.
    pub fn took(&mut self, reply: &Reply)
        ensures { self.new ≡ replied self.old reply.now }
    {
        self.course = self.course.took(reply);
    }

    /// `Put`, or `Full` where its node found no room; `None` while it is not done.
    pub fn done(&self) -> Option<QueueReply>
        ensures { result ≡ self.now.done }
    {
        self.course.done
    }
}

/// A take from the queue, by a thread that has joined: root 1 names the anchor. Uses roots 4, 5 and 6.
#[derive(Drop)]
pub struct Take {
    course: Course,
}

impl Model for Take {
    ghost use Rattle.managed_queue.specs.declared.operation.Course.{Course};

    ghost Value = { Course };

    ghost view = { λ operation. operation.course };
}

impl Take {
    /// A take.
    pub fn new() -> Take
        ensures { result ≡ untouched choice.Take }
    {
        Take {
            course: Course::new(Choice::Take),
        }
    }

    /// Its next command.
    pub fn next(&self) -> Command
        requires { self.now.done ≡ None }
        ensures table { MayCome self.now.spot result }
        ensures chosen { result ≡ command_coming self.now.choice self.now.spot }
        ensures valid { IsValid result }
    {
        self.course.spot.next(self.course.choice)
    }

    /// Takes the reply to that command. One that is done stays.
    pub fn took(&mut self, reply: &Reply)
        ensures { self.new ≡ replied self.old reply.now }
    {
        self.course = self.course.took(reply);
    }

    /// `Got` with the number, or `Empty`; `None` while it is not done.
    pub fn done(&self) -> Option<QueueReply>
        ensures { result ≡ self.now.done }
    {
        self.course.done
    }
}
