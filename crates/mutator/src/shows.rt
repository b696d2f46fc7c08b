ghost use Rattle.std.specs.Prelude.{◌≡◌, true};
ghost use Rattle.heap_words.specs.Touch.{placed};
ghost use Rattle.heap_words.specs.Fits.{touch_fits};
ghost use Rattle.mutator.specs.Rows as rows;

use crate::commands::dst_of;
use crate::spot::Spot;
use heap_words::{Access, Config, Place, count_of, thread_of};
use shen_graph::{Command, Name, Reply};

/// Where a call stands that shows a reference which it has found, and stores it into the command's root.
#[derive(Clone, Copy)]
pub enum ShowSpot {
    /// It loads the name of the object, for the reply.
    LoadName,
    /// It stores the reference into the root.
    StoreRoot {
        /// The reply, which shows the reference.
        reply: Reply,
    },
}

impl ShowSpot {
    /// The place of the next access.
    pub(crate) fn place(self) -> Place
        ensures { result ≡ rows.show_place self }
    {
        match self {
            ShowSpot::LoadName => Place::NM,
            ShowSpot::StoreRoot { .. } => Place::RS,
        }
    }

    /// The next access of the mutator of a seat that has found this reference.
    pub(crate) fn access(self, config: Config, seat: usize, value: u64, command: Command) -> Access
        requires { touch_fits config (rows.show_touch seat value command self) ≡ true }
        ensures { result ≡ placed config (rows.show_touch seat value command self) }
    {
        match self {
            ShowSpot::LoadName => Access::load(config.heap_at(value + 2)),
            // keeps HasItsOwn.roots and IsSeated.usable
            ShowSpot::StoreRoot { .. } => Access::store(
                config.root_at(seat, dst_of(command) as usize),
                value,
            ),
        }
    }

    /// Where the call goes on with the word that was there.
    pub(crate) fn after(self, value: u64, got: u64) -> Spot
        ensures { result ≡ rows.show_next value self got }
    {
        match self {
            ShowSpot::LoadName => Spot::Showing {
                value,
                at: ShowSpot::StoreRoot {
                    reply: Reply::Ref(name_in(got)),
                },
            },
            ShowSpot::StoreRoot { reply } => Spot::Leave { reply },
        }
    }
}

/// Where a call goes on with the reference that was in a field, for a root.
pub(crate) fn after_field(value: u64) -> Spot
    ensures { result ≡ rows.after_field value }
{
    let at = if value == 0 {
        ShowSpot::StoreRoot { reply: Reply::Null }
    } else {
        ShowSpot::LoadName
    };
    Spot::Showing { value, at }
}

// The name of a name word.
pub(crate) fn name_in(code: u64) -> Name
    ensures { result ≡ rows.name_in code }
{
    Name {
        thread: thread_of(code),
        count: count_of(code),
    }
}
