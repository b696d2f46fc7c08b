ghost use Rattle.std.specs.Prelude.{◌≡◌};
ghost use Rattle.mutator.specs.Orders.{takes_commands};
ghost use Rattle.mutator.specs.Rows.{first_place, place_at};
ghost use Rattle.mutator.specs.WaitRows.{after_enter, call_says};

use crate::fields::FieldSpot;
use crate::loads::LoadSpot;
use crate::makes::MakeSpot;
use crate::numbers::NumberSpot;
use crate::overwrites::Overwritten;
use crate::pins::PinSpot;
use crate::resolves::Loaded;
use crate::shows::ShowSpot;
use crate::waits::WaitSpot;
use handshake::EnterSpot;
use heap_words::{Place, Took};
use load_barrier::ResolveSpot;
use satb_barrier::RememberSpot;
use shen_graph::{Command, Order, Reply};

/// What a call keeps of its start.
#[derive(Clone, Copy)]
pub struct Kept {
    /// Its command.
    pub command: Command,
    /// The phase that it has loaded.
    pub phase: u64,
    /// The collection set that it has loaded: region r is in it where bit r is 1.
    pub cset: u64,
}

/// What a mutator does once it is inside.
#[derive(Clone, Copy)]
pub enum Entered {
    /// It begins a call.
    Call,
    /// It goes on with a call that has waited for its object.
    Waited,
}

impl Entered {
    /// Where the mutator goes on that enters and stands so.
    pub(crate) fn after(self, at: EnterSpot) -> Spot
        ensures { result ≡ after_enter self at }
    {
        match (self, at) {
            (Entered::Call, EnterSpot::Inside) => Spot::LoadPhase,
            (Entered::Waited, EnterSpot::Inside) => Spot::Waiting {
                at: WaitSpot::LoadAnswer,
            },
            (then, at) => Spot::Entering { at, then },
        }
    }
}

/// What a step of a call says where its part says so: once a part is done, the call goes on.
pub(crate) fn call_says(said: Took) -> Took
    ensures { result ≡ call_says said }
{
    match said {
        Took::Again => Took::Again,
        _ => Took::More,
    }
}

/// Where a mutator stands, with what its next step needs beside what the call keeps: a spot of its own, or that of a part
/// of a call. An address counts words, and 0 is the null reference.
#[derive(Clone, Copy)]
pub enum Spot {
    /// Before its first call.
    Rest,
    /// Between two calls: the last one was answered so.
    Ended {
        /// The answer.
        reply: Reply,
    },
    /// It enters the heap.
    Entering {
        /// Where the entering stands.
        at: EnterSpot,
        /// What follows.
        then: Entered,
    },
    /// It loads the phase.
    LoadPhase,
    /// It loads the collection set.
    LoadSet,
    /// It loads the roots of its command, and the shape of the object that the command works on.
    Loading {
        /// Where the loading stands.
        at: LoadSpot,
    },
    /// It works on the command's reference field.
    OnField {
        /// The object.
        object: u64,
        /// What it does to the field.
        at: FieldSpot,
    },
    /// It resolves a reference into the collection set, which it has found in the field.
    Resolving {
        /// The reference.
        address: u64,
        /// Where the resolving stands.
        at: ResolveSpot,
        /// What follows.
        next: Loaded,
    },
    /// It records a reference that it overwrites while objects are marked.
    Recording {
        /// Where the recording stands.
        at: RememberSpot,
        /// The reference.
        address: u64,
        /// What follows.
        next: Overwritten,
    },
    /// It works on the command's number.
    OnNumber {
        /// The object.
        object: u64,
        /// How many references the object has, behind which its numbers stand.
        refs: u64,
        /// What it does to the number.
        at: NumberSpot,
    },
    /// It stores a reference that it has found into the command's root, and replies with its name.
    Showing {
        /// The reference.
        value: u64,
        /// Where this stands.
        at: ShowSpot,
    },
    /// It stores a copied reference, or null, into the command's root.
    StoreRoot {
        /// The reference.
        value: u64,
    },
    /// It makes an object, which the command's root names then.
    Making {
        /// Where the making stands.
        at: MakeSpot,
    },
    /// It asks for a cycle.
    AskCycle,
    /// It works on the command's pin slot.
    Pinning {
        /// The reference that is to be stored there.
        value: u64,
        /// What it does to the slot.
        at: PinSpot,
    },
    /// It waits for an object that a pause makes, which the command's root names then.
    Waiting {
        /// Where the waiting stands.
        at: WaitSpot,
    },
    /// It leaves the heap, and then gives the reply.
    Leave {
        /// The reply.
        reply: Reply,
    },
    /// It has ended, and takes no order any more.
    Gone,
}

impl Spot {
    // Whether a mutator that stands there may be given a command, or be told to end.
    pub(crate) fn takes_commands(self) -> bool
        ensures { result ≡ takes_commands self }
    {
        matches!(self, Spot::Rest | Spot::Ended { .. })
    }

    /// The place of the next access under the order; between two calls, that of the first access of a call, or of the access
    /// by which the mutator ends. One that has ended makes no access, and stands where it made its last one.
    pub fn place(self, order: Order) -> Place
        ensures { result ≡ place_at order self }
    {
        match self {
            Spot::Rest | Spot::Ended { .. } => first_place(order),
            Spot::Entering { at, .. } => at.place(),
            Spot::LoadPhase => Place::PH,
            Spot::LoadSet => Place::CS,
            Spot::Loading { at } => at.place(),
            Spot::OnField { at, .. } => at.place(),
            Spot::Resolving { at, .. } => at.place(),
            Spot::Recording { at, .. } => at.place(),
            Spot::OnNumber { at, .. } => at.place(),
            Spot::Showing { at, .. } => at.place(),
            Spot::StoreRoot { .. } => Place::RS,
            Spot::Making { at } => at.place(),
            Spot::AskCycle => Place::AK,
            Spot::Pinning { at, .. } => at.place(),
            Spot::Waiting { at } => at.place(),
            Spot::Leave { .. } => Place::LV,
            Spot::Gone => Place::ML,
        }
    }
}

// Between two calls it is by the order.
fn first_place(order: Order) -> Place
    ensures { result ≡ first_place order }
{
    match order {
        Order::End => Place::ML,
        _ => EnterSpot::Raise.place(),
    }
}
