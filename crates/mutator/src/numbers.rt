ghost use Rattle.std.specs.Prelude.{◌≡◌, true};
ghost use Rattle.heap_words.specs.Touch.{placed};
ghost use Rattle.heap_words.specs.Fits.{touch_fits};
ghost use Rattle.mutator.specs.Rows as rows;

use crate::commands::{index_of, number_of};
use crate::spot::Spot;
use heap_words::{Access, Config, Place};
use shen_graph::{Command, Reply};

/// What a call does to the number that its command is about.
#[derive(Clone, Copy)]
pub enum NumberSpot {
    /// It loads the number.
    Load,
    /// It stores the command's number.
    Store,
}

impl NumberSpot {
    /// The place of the next access.
    pub(crate) fn place(self) -> Place
        ensures { result ≡ rows.number_place self }
    {
        match self {
            NumberSpot::Load => Place::NL,
            NumberSpot::Store => Place::NS,
        }
    }

    /// The next access, of the number of an object that has so many references.
    pub(crate) fn access(self, config: Config, object: u64, refs: u64, command: Command) -> Access
        requires { touch_fits config (rows.number_touch object refs command self) ≡ true }
        ensures { result ≡ placed config (rows.number_touch object refs command self) }
    {
        let at = config.heap_at(object + 3 + refs + index_of(command) as u64);
        match self {
            NumberSpot::Load => Access::load(at),
            // keeps AreObjects and RelyCopies
            NumberSpot::Store => Access::store(at, number_of(command)),
        }
    }

    /// Where the call goes on with the number that was there.
    pub(crate) fn after(self, got: u64) -> Spot
        ensures { result ≡ rows.number_next self got }
    {
        let reply = match self {
            NumberSpot::Load => Reply::Number(got),
            NumberSpot::Store => Reply::Ok,
        };
        Spot::Leave { reply }
    }
}
