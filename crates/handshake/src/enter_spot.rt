ghost use Rattle.std.specs.Prelude.{◌≡◌, ◌<◌, ◌+◌, false};
ghost use Rattle.heap_words.specs.Access.{table_index};
ghost use Rattle.heap_words.specs.Words.{table_words};
ghost use Rattle.heap_words.specs.Touch.{placed};
ghost use Rattle.handshake.specs.EnterRows as rows;

use crate::values::{IN, OUT, UNWANTED};
use heap_words::{Access, Config, Place, Took};

/// Where a mutator or a helper stands that enters the heap.
#[derive(Clone, Copy)]
pub enum EnterSpot {
    /// It stores into its state word that it is in.
    Raise,
    /// It looks whether a pause is wanted, now that its state word says that it is in.
    Look,
    /// A pause is wanted: it stores into its state word that it is out.
    Lower,
    /// It waits until no pause is wanted.
    Await,
    /// It is inside, and no pause begins until it leaves. It makes no access.
    Inside,
}

impl EnterSpot {
    /// The place of the next access. There is none inside, where it is named as that of the last access.
    pub fn place(self) -> Place
        ensures { result ≡ rows.place_at self }
    {
        match self {
            EnterSpot::Raise => Place::E1,
            EnterSpot::Look | EnterSpot::Inside => Place::E2,
            EnterSpot::Lower => Place::E3,
            EnterSpot::Await => Place::E4,
        }
    }

    /// Whether it is inside.
    pub fn is_ended(self) -> bool
        ensures { result ≡ rows.is_ended self }
    {
        matches!(self, EnterSpot::Inside)
    }

    /// The next access, of the machine of a seat of a mutator or a helper.
    pub fn access(self, config: Config, seat: usize) -> Access
        requires seat { seat < config.mutators + config.helpers }
        requires busy { rows.is_ended self ≡ false }
        ensures row { result ≡ placed config (rows.touch_at seat self) }
        ensures inside { table_index result < table_words config }
    {
        match self {
            // keeps IsShaken
            EnterSpot::Raise => Access::store(config.state_at(seat), IN),
            // keeps IsShaken
            EnterSpot::Lower => Access::store(config.state_at(seat), OUT),
            EnterSpot::Look | EnterSpot::Await => Access::load(config.pause_at()),
            EnterSpot::Inside => unreachable!(),
        }
    }

    /// Where it stands after it, by the word that the access has found; inside it stays.
    pub fn after(self, got: u64) -> EnterSpot
        ensures row { result ≡ rows.next_at self got }
    {
        match self {
            EnterSpot::Raise => EnterSpot::Look,
            EnterSpot::Look if got == UNWANTED => EnterSpot::Inside,
            EnterSpot::Look => EnterSpot::Lower,
            EnterSpot::Lower => EnterSpot::Await,
            EnterSpot::Await if got == UNWANTED => EnterSpot::Raise,
            EnterSpot::Await => EnterSpot::Await,
            EnterSpot::Inside => EnterSpot::Inside,
        }
    }

    /// What the step says that finds this word: done where it leads inside, again where it waits on.
    pub fn says(self, got: u64) -> Took
        ensures { result ≡ rows.says_at self got }
    {
        match self {
            EnterSpot::Look if got == UNWANTED => Took::Done,
            EnterSpot::Await if got != UNWANTED => Took::Again,
            EnterSpot::Inside => Took::Done,
            _ => Took::More,
        }
    }
}
