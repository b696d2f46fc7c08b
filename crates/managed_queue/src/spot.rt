ghost use Rattle.std.specs.Prelude.{◌≡◌};
ghost use Rattle.shen_graph.specs.declared.command.Command.TheVariants as command;
ghost use Rattle.managed_queue.specs.Spots as spots;
ghost use Rattle.shen_graph.specs.Valid.{IsValid};
ghost use Rattle.managed_queue.specs.Spots.{MayCome, next_spot, operation_ended};
ghost use Rattle.managed_queue.specs.Machines.{command_coming, answer_told};

use crate::operation::{Choice, QueueReply};
use shen_graph::{Command, Reply};

/// Where a user of the queue stands: what it does next. The number is that of its `Put`, or the one that its `Take` read.
#[derive(Clone, Copy)]
pub enum Spot {
    /// The set-up: makes the anchor.
    MakesAnchor,
    /// Makes the first node.
    MakesFirst,
    /// Sets the head to it.
    SetsHead,
    /// Sets the tail to it.
    SetsTail,
    /// Shows the anchor in field 0 of the hub.
    Shows,
    /// The join: looks for the anchor.
    Joins,
    /// Between two operations: begins one.
    Rests,
    /// A put has its node: writes the number.
    Fills,
    /// Loads the tail.
    Looks(u64),
    /// Loads what follows the tail.
    Follows(u64),
    /// Nothing does: links the node.
    Links(u64),
    /// A node does: moves the tail there.
    Helps(u64),
    /// The node is linked: moves the tail there.
    Swings(u64),
    /// A take begins another turn: loads the head.
    Turns,
    /// Has the head: loads the tail.
    TookHead,
    /// Has both: loads what follows the head.
    TookTail,
    /// Has all three: compares head and tail. Whether nothing follows.
    Compares(bool),
    /// The tail lags behind: moves it.
    Pushes,
    /// Reads the number of the node behind the head.
    Reads,
    /// Moves the head there.
    Unlinks(u64),
}

impl Spot {
    // The next command, where an operation was chosen.
    pub(crate) fn next(&self, choice: Choice) -> Command
        ensures table { MayCome self.now result }
        ensures chosen { result ≡ command_coming choice self.now }
        ensures valid { IsValid result }
    {
        self.command(choice)
    }

    // The same, by the table alone.
    fn command(&self, choice: Choice) -> Command
        ensures { result ≡ command_coming choice self.now }
    {
        match *self {
            Spot::MakesAnchor => Command::New {
                dst: 1,
                refs: 2,
                nums: 0,
            },
            Spot::MakesFirst => Command::New {
                dst: 2,
                refs: 1,
                nums: 1,
            },
            Spot::SetsHead => set(1, 0, 2),
            Spot::SetsTail => set(1, 1, 2),
            Spot::Shows => set(0, 0, 1),
            Spot::Joins => get(1, 0, 0),
            Spot::Rests => choice.first_command(),
            Spot::Fills => Command::Wr {
                obj: 3,
                index: 0,
                value: choice.number(),
            },
            Spot::Looks(_) => get(4, 1, 1),
            Spot::Follows(_) => get(5, 4, 0),
            Spot::Links(_) => cas(4, 0, 7, 3),
            Spot::Helps(_) => cas(1, 1, 4, 5),
            Spot::Swings(_) => cas(1, 1, 4, 3),
            Spot::Turns => get(4, 1, 0),
            Spot::TookHead => get(5, 1, 1),
            Spot::TookTail => get(6, 4, 0),
            Spot::Compares(_) => Command::Same { a: 4, b: 5 },
            Spot::Pushes => cas(1, 1, 5, 6),
            Spot::Reads => Command::Rd { obj: 6, index: 0 },
            Spot::Unlinks(_) => cas(1, 0, 4, 6),
        }
    }

    // Where the reply to that command leads.
    pub(crate) fn after(&self, choice: Choice, reply: &Reply) -> Spot
        ensures { result ≡ next_spot self.now (command_coming choice self.now) reply.now }
    {
        match *self {
            Spot::MakesAnchor => Spot::MakesFirst,
            Spot::MakesFirst => Spot::SetsHead,
            Spot::SetsHead => Spot::SetsTail,
            Spot::SetsTail => Spot::Shows,
            Spot::Shows | Spot::Swings(_) => Spot::Rests,
            Spot::Joins => after_join(reply),
            Spot::Rests => choice.after_first(reply),
            Spot::Fills => Spot::Looks(choice.number()),
            Spot::Looks(value) => Spot::Follows(value),
            Spot::Follows(value) => behind_tail(value, reply),
            Spot::Links(value) => after_link(value, reply),
            Spot::Helps(value) => Spot::Looks(value),
            Spot::Turns => Spot::TookHead,
            Spot::TookHead => Spot::TookTail,
            Spot::TookTail => Spot::Compares(is_null(reply)),
            Spot::Compares(nothing) => after_same(nothing, reply),
            Spot::Pushes => Spot::Turns,
            Spot::Reads => Spot::Unlinks(number_in(reply)),
            Spot::Unlinks(_) => after_unlink(reply),
        }
    }

    // The reply of the operation that ends with this one.
    pub(crate) fn answer(&self, reply: &Reply) -> Option<QueueReply>
        ensures { result ≡ answer_told (operation_ended self.now reply.now) }
    {
        match (*self, *reply) {
            (Spot::Rests, Reply::Full) => Some(QueueReply::Full),
            (Spot::Swings(_), _) => Some(QueueReply::Put),
            (Spot::Compares(true), Reply::Yes) => Some(QueueReply::Empty),
            (Spot::Unlinks(value), Reply::Yes) => Some(QueueReply::Got(value)),
            _ => None,
        }
    }
}

fn get(dst: u32, src: u32, field: u32) -> Command
    ensures { result ≡ command.Get dst src field }
{
    Command::Get { dst, src, field }
}

fn set(obj: u32, field: u32, val: u32) -> Command
    ensures { result ≡ command.Set obj field val }
{
    Command::Set { obj, field, val }
}

fn cas(obj: u32, field: u32, expect: u32, val: u32) -> Command
    ensures { result ≡ command.Cas obj field expect val }
{
    Command::Cas {
        obj,
        field,
        expect,
        val,
    }
}

fn after_join(reply: &Reply) -> Spot
    ensures { result ≡ spots.after_join reply.now }
{
    match *reply {
        Reply::Ref(_) => Spot::Rests,
        _ => Spot::Joins,
    }
}

fn behind_tail(value: u64, reply: &Reply) -> Spot
    ensures { result ≡ spots.behind_tail value reply.now }
{
    match *reply {
        Reply::Null => Spot::Links(value),
        _ => Spot::Helps(value),
    }
}

fn after_link(value: u64, reply: &Reply) -> Spot
    ensures { result ≡ spots.after_link value reply.now }
{
    match *reply {
        Reply::Yes => Spot::Swings(value),
        _ => Spot::Looks(value),
    }
}

fn is_null(reply: &Reply) -> bool
    ensures { result ≡ spots.is_null reply.now }
{
    match *reply {
        Reply::Null => true,
        _ => false,
    }
}

fn after_same(nothing: bool, reply: &Reply) -> Spot
    ensures { result ≡ spots.after_same nothing reply.now }
{
    match *reply {
        Reply::Yes if nothing => Spot::Rests,
        Reply::Yes => Spot::Pushes,
        _ => Spot::Reads,
    }
}

fn number_in(reply: &Reply) -> u64
    ensures { result ≡ spots.number_in reply.now }
{
    match *reply {
        Reply::Number(value) => value,
        _ => 0,
    }
}

fn after_unlink(reply: &Reply) -> Spot
    ensures { result ≡ spots.after_unlink reply.now }
{
    match *reply {
        Reply::Yes => Spot::Rests,
        _ => Spot::Turns,
    }
}
