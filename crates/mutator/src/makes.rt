ghost use Rattle.std.specs.Prelude.{◌≡◌, ◌<◌, true};
ghost use Rattle.shen_graph.specs.Valid.{most_objects};
ghost use Rattle.heap_words.specs.Touch.{placed};
ghost use Rattle.heap_words.specs.Fits.{touch_fits};
ghost use Rattle.heap_words.specs.Encoding as encoding;
ghost use Rattle.mutator.specs.Rows as rows;
ghost use Rattle.mutator.specs.WaitRows.{next_name};
ghost use Rattle.mutator.specs.Fit.{can_make, make_fits, make_goes, is_next_object};

use crate::commands::{dst_of, size_of};
use crate::spot::{Spot, call_says};
use crate::waits::WaitSpot;
use alloc_buffers::{Kind, TakeSpot, Taken};
use heap_words::{Access, Config, Place, Took, name_word, shape_of};
use shen_graph::{Command, Name, Reply};

/// Where a call stands that makes an object.
#[derive(Clone, Copy)]
pub enum MakeSpot {
    /// It takes room for the object.
    Taking {
        /// Where the taking stands.
        take: TakeSpot,
    },
    /// It stores the words of the object, one after the other.
    StoreWord {
        /// Where the object stands.
        address: u64,
        /// How many of its words are stored.
        done: u64,
    },
    /// It stores the object into the root.
    StoreRoot {
        /// Where the object stands.
        address: u64,
    },
}

impl MakeSpot {
    /// The place of the next access.
    pub(crate) fn place(self) -> Place
        ensures { result ≡ rows.make_place self }
    {
        match self {
            MakeSpot::Taking { take } => take.place(),
            MakeSpot::StoreWord { .. } => Place::IW,
            MakeSpot::StoreRoot { .. } => Place::RS,
        }
    }

    /// The next access of the mutator of a seat that has made so many objects.
    pub(crate) fn access(self, config: Config, seat: usize, made: u32, command: Command) -> Access
        requires seat { seat < config.mutators }
        requires fits { touch_fits config (rows.make_touch seat made command self) ≡ true }
        requires make { can_make made command ≡ true }
        requires numbers { make_fits config command self ≡ true }
        ensures { result ≡ placed config (rows.make_touch seat made command self) }
    {
        let (refs, nums) = size_of(command);
        match self {
            MakeSpot::Taking { take } => take.access(config, seat, 3 + refs as u64 + nums as u64),
            // keeps AreObjects, AreUnwritten and IsFilling: the words are in hand
            MakeSpot::StoreWord { address, done } => Access::store(
                config.heap_at(address + done),
                fresh_word(seat, made, refs, nums, done),
            ),
            // keeps HasItsOwn.roots, IsSeated.usable, AreObjects, AreRooms and IsGiven
            // keeps KeepsMarking.older and IsUpdating.outside
            MakeSpot::StoreRoot { address } => Access::store(
                config.root_at(seat, dst_of(command) as usize),
                address,
            ),
        }
    }

    /// Where the call goes on with the word that was there, and what the step says.
    pub(crate) fn after(
        self,
        config: Config,
        seat: usize,
        made: u32,
        command: Command,
        got: u64,
    ) -> (Spot, Took)
        requires seat { seat < config.mutators }
        requires fits { touch_fits config (rows.make_touch seat made command self) ≡ true }
        requires make { can_make made command ≡ true }
        requires numbers { make_fits config command self ≡ true }
        requires fit { make_goes config seat command self got ≡ true }
        ensures spot { result.0 ≡ rows.make_next config seat made command self got }
        ensures says { result.1 ≡ rows.make_says config command self got }
    {
        let (refs, nums) = size_of(command);
        let words = 3 + refs as u64 + nums as u64;
        match self {
            MakeSpot::Taking { take } => {
                let next = take.after(config, seat, words, Kind::Fresh, got);
                (after_take(next), call_says(take.says(next)))
            }
            MakeSpot::StoreWord { address, done } => (
                after_word(words, address, done + 1),
                Took::More,
            ),
            MakeSpot::StoreRoot { .. } => {
                let reply = Reply::Ref(next_name(seat, made));
                (Spot::Leave { reply }, Took::More)
            }
        }
    }

    /// How many objects the mutator has made after the step.
    pub(crate) fn made_after(self, made: u32) -> u32
        requires { made < most_objects }
        ensures { result ≡ rows.made_after made self }
    {
        match self {
            // keeps IsGiven
            MakeSpot::StoreRoot { .. } => made + 1,
            _ => made,
        }
    }
}

// Where it goes on with its room for an object: where there is none, it asks for the object.
fn after_take(take: TakeSpot) -> Spot
    ensures { result ≡ rows.after_take take }
{
    let at = match take {
        TakeSpot::Ended {
            taken: Taken::At(address),
            ..
        } => MakeSpot::StoreWord { address, done: 0 },
        TakeSpot::Ended {
            taken: Taken::NoRoom,
            ..
        } => {
            return Spot::Waiting {
                at: WaitSpot::StoreRequest,
            };
        }
        _ => MakeSpot::Taking { take },
    };
    Spot::Making { at }
}

// Where it goes on with an object of so many words, once so many of them were stored.
fn after_word(words: u64, address: u64, done: u64) -> Spot
    ensures { result ≡ rows.after_word words address done }
{
    let at = if done < words {
        MakeSpot::StoreWord { address, done }
    } else {
        MakeSpot::StoreRoot { address }
    };
    Spot::Making { at }
}

// A word of a new object of a mutator, which is counted from 0 and has made so many objects.
fn fresh_word(seat: usize, made: u32, refs: u32, nums: u32, place: u64) -> u64
    requires seat { seat < 8 }
    requires new { is_next_object made refs nums ≡ true }
    ensures { result ≡ encoding.fresh_word seat made refs nums place }
{
    match place {
        0 => 1,
        1 => shape_of(refs as u64, nums as u64),
        2 => name_word(seat as u32 + 1, made + 1),
        _ => 0,
    }
}

/// The name of the next object of a mutator, which is counted from 0 and has made so many objects.
pub(crate) fn next_name(seat: usize, made: u32) -> Name
    requires seat { seat < 8 }
    requires made { made < most_objects }
    ensures { result ≡ next_name seat made }
{
    Name {
        thread: seat as u32 + 1,
        count: made + 1,
    }
}
