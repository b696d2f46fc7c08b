ghost use Rattle.std.specs.Prelude.{◌≡◌, ◌<◌, true};
ghost use Rattle.heap_words.specs.Touch.{placed};
ghost use Rattle.heap_words.specs.Fits.{touch_fits};
ghost use Rattle.mutator.specs.WaitRows as rows;
ghost use Rattle.mutator.specs.Fit.{can_make, can_count, wait_fits};

use crate::commands::{dst_of, size_of};
use crate::makes::next_name;
use crate::spot::{Entered, Spot};
use handshake::{EnterSpot, leave_access};
use heap_words::{Access, Config, Place, Took, request_word, shape_of};
use shen_graph::{Command, Reply};

/// Where a call stands that waits for its object: it found no room, and a pause makes the object for it, or answers that the
/// heap is full.
#[derive(Clone, Copy)]
pub enum WaitSpot {
    /// It stores what it needs, for the pause to read.
    StoreRequest,
    /// It asks for a pause.
    AskRoom,
    /// It leaves the heap, so that the pause can begin.
    StepOut,
    /// It looks whether it has an answer.
    Poll,
    /// It loads the answer, inside again, where no pause moves the object.
    LoadAnswer,
    /// It stores the object into the root.
    StoreRoot {
        /// Where the object stands.
        address: u64,
    },
    /// It takes the answer away, for the next request.
    ClearAnswer {
        /// The reply of the call.
        reply: Reply,
    },
}

impl WaitSpot {
    /// The place of the next access.
    pub(crate) fn place(self) -> Place
        ensures { result ≡ rows.wait_place self }
    {
        match self {
            WaitSpot::StoreRequest => Place::WS,
            WaitSpot::AskRoom => Place::WK,
            WaitSpot::StepOut => Place::WO,
            WaitSpot::Poll => Place::WP,
            WaitSpot::LoadAnswer => Place::WL,
            WaitSpot::StoreRoot { .. } => Place::RS,
            WaitSpot::ClearAnswer { .. } => Place::WC,
        }
    }

    /// The next access of the mutator of a seat that has made so many objects.
    pub(crate) fn access(self, config: Config, seat: usize, made: u32, command: Command) -> Access
        requires seat { seat < config.mutators }
        requires fits { touch_fits config (rows.wait_touch seat made command self) ≡ true }
        requires numbers { wait_fits made command self ≡ true }
        ensures { result ≡ placed config (rows.wait_touch seat made command self) }
    {
        match self {
            // keeps IsAsked
            WaitSpot::StoreRequest => Access::store(config.wait_at(seat), request(made, command)),
            // keeps IsHeard and IsDue of heap_world
            WaitSpot::AskRoom => Access::or(config.ask_at(), 2),
            WaitSpot::StepOut => leave_access(config, seat),
            WaitSpot::Poll | WaitSpot::LoadAnswer => Access::load(config.answer_at(seat)),
            // keeps HasItsOwn.roots, IsSeated.usable, AreObjects and IsGiven
            // keeps KeepsMarking.older and HaveMoved.spents
            WaitSpot::StoreRoot { address } => Access::store(
                config.root_at(seat, dst_of(command) as usize),
                address,
            ),
            // keeps IsSeated.unasked and IsSeen
            WaitSpot::ClearAnswer { .. } => Access::store(config.answer_at(seat), 0),
        }
    }

    /// Where the call of the mutator of a seat goes on with the word that was there.
    pub(crate) fn after(self, seat: usize, made: u32, got: u64) -> Spot
        requires seat { seat < 8 }
        requires count { can_count made self ≡ true }
        ensures { result ≡ rows.wait_next seat made self got }
    {
        let at = match self {
            WaitSpot::StoreRequest => WaitSpot::AskRoom,
            WaitSpot::AskRoom => WaitSpot::StepOut,
            WaitSpot::StepOut => WaitSpot::Poll,
            WaitSpot::Poll => return after_poll(got),
            WaitSpot::LoadAnswer if got == 1 => WaitSpot::ClearAnswer { reply: Reply::Full },
            WaitSpot::LoadAnswer => WaitSpot::StoreRoot { address: got },
            WaitSpot::StoreRoot { .. } => WaitSpot::ClearAnswer {
                reply: Reply::Ref(next_name(seat, made)),
            },
            WaitSpot::ClearAnswer { reply } => return Spot::Leave { reply },
        };
        Spot::Waiting { at }
    }

    /// How many objects the mutator has made after the step.
    pub(crate) fn made_after(self, made: u32) -> u32
        requires { can_count made self ≡ true }
        ensures { result ≡ rows.wait_made made self }
    {
        match self {
            // keeps IsGiven
            WaitSpot::StoreRoot { .. } => made + 1,
            _ => made,
        }
    }

    /// What the step says that has found this word.
    pub(crate) fn says(self, got: u64) -> Took
        ensures { result ≡ rows.wait_says self got }
    {
        match self {
            WaitSpot::Poll if got == 0 => Took::Again,
            _ => Took::More,
        }
    }
}

// The word that asks for the object of a command.
fn request(made: u32, command: Command) -> u64
    requires { can_make made command ≡ true }
    ensures { result ≡ rows.request_of made command }
{
    let (refs, nums) = size_of(command);
    request_word(made + 1, shape_of(refs as u64, nums as u64))
}

// Where it goes on once it has looked for an answer: with one it enters the heap again.
fn after_poll(got: u64) -> Spot
    ensures { result ≡ rows.wait_next 0 0 WaitSpot.Poll got }
{
    if got == 0 {
        return Spot::Waiting { at: WaitSpot::Poll };
    }
    Spot::Entering {
        at: EnterSpot::Raise,
        then: Entered::Waited,
    }
}
