ghost use Rattle.std.specs.Prelude.{◌≡◌, true};
ghost use Rattle.heap_words.specs.Touch.{placed};
ghost use Rattle.heap_words.specs.Fits.{touch_fits};
ghost use Rattle.mutator.specs.Commands as parts;
ghost use Rattle.mutator.specs.Rows as rows;

use crate::commands::{fits_slot, slot_of};
use crate::spot::Spot;
use heap_words::{Access, Config, Place};
use shen_graph::{Command, Reply};

/// What a call does to the pin slot that its command is about.
#[derive(Clone, Copy)]
pub enum PinSpot {
    /// It looks whether the slot is empty.
    Look,
    /// It stores into the slot.
    Store,
}

impl PinSpot {
    /// The place of the next access.
    pub(crate) fn place(self) -> Place
        ensures { result ≡ rows.pin_place self }
    {
        match self {
            PinSpot::Look => Place::PB,
            PinSpot::Store => Place::PN,
        }
    }

    /// The next access of the mutator of a seat that stores this reference.
    pub(crate) fn access(self, config: Config, seat: usize, value: u64, command: Command) -> Access
        requires { touch_fits config (rows.pin_touch seat value command self) ≡ true }
        ensures { result ≡ placed config (rows.pin_touch seat value command self) }
    {
        let at = config.pin_at(seat, slot_of(command) as usize);
        match self {
            PinSpot::Look => Access::load(at),
            // keeps SharedFacts.pinned
            PinSpot::Store => Access::store(at, value),
        }
    }

    /// Where the call goes on that stores this reference, with the word that was there: the reply is Bad where the slot is
    /// not empty that is to be, or is empty.
    pub(crate) fn after(self, value: u64, command: Command, got: u64) -> Spot
        ensures { result ≡ rows.pin_next value command self got }
    {
        match self {
            PinSpot::Look if fits_slot(command, got) => Spot::Pinning {
                value,
                at: PinSpot::Store,
            },
            PinSpot::Look => Spot::Leave { reply: Reply::Bad },
            PinSpot::Store => Spot::Leave {
                reply: pin_reply(command, value),
            },
        }
    }
}

/// The reply of a command that stores this reference into its slot: the place of the object, or that it is done.
pub(crate) fn pin_reply(command: Command, value: u64) -> Reply
    ensures { result ≡ parts.pin_reply command value }
{
    match command {
        Command::Pin { .. } => Reply::At(value),
        _ => Reply::Ok,
    }
}
