ghost use Rattle.std.specs.Prelude.{◌≡◌, ◌<◌, true, false};
ghost use Rattle.heap_words.specs.Access.{table_index};
ghost use Rattle.heap_words.specs.Words.{table_words};
ghost use Rattle.heap_words.specs.Touch.{placed};
ghost use Rattle.evac_room.specs.Spot as spots;
ghost use Rattle.evac_room.specs.Rows as rows;

use crate::counter::{count_of, is_out_of_room, marked};
use heap_words::{Access, Config, Place, Took};

/// Where a copier stands between two accesses of the word that counts the copiers.
#[derive(Clone, Copy)]
pub enum RoomSpot {
    /// It does not copy, and has not asked to.
    Outside,
    /// It enters: it looks at the counter next.
    Look,
    /// It enters: it raises the counter by one next.
    Raise {
        /// The word that it found.
        found: u64,
    },
    /// It may copy, and is counted.
    Inside,
    /// It leaves: it takes itself off the counter next.
    Lower,
    /// It found no room: it looks at the counter next.
    Ask,
    /// It found no room: it sets bit 63 of the counter next, and takes itself off.
    Mark {
        /// The word that it found.
        found: u64,
    },
    /// It found no room, and looks next whether nobody copies.
    Wait,
    /// It does not copy, since there was no room, and nobody copies any more.
    Stopped,
}

impl RoomSpot {
    /// Whether its call has ended. It makes no access then.
    pub fn is_ended(self) -> bool
        ensures { result ≡ spots.is_ended self }
    {
        matches!(
            self,
            RoomSpot::Outside | RoomSpot::Inside | RoomSpot::Stopped
        )
    }

    /// The place of its next access; at rest it makes none, and the place is that of a call which it may begin.
    pub fn place(self) -> Place
        ensures { result ≡ rows.place_at self }
    {
        match self {
            RoomSpot::Outside | RoomSpot::Look | RoomSpot::Stopped => Place::XL,
            RoomSpot::Raise { .. } => Place::XC,
            RoomSpot::Inside | RoomSpot::Lower => Place::XS,
            RoomSpot::Ask => Place::OL,
            RoomSpot::Mark { .. } => Place::OX,
            RoomSpot::Wait => Place::XW,
        }
    }

    /// Its next access, of the word that counts the copiers. A word that it raises has bit 63 clear.
    pub fn access(self, config: Config) -> Access
        requires busy { spots.is_ended self ≡ false }
        requires clear { spots.raises_clear self ≡ true }
        ensures row { result ≡ placed config (rows.touch_at self) }
        ensures inside { table_index result < table_words config }
    {
        let at = config.evac_at();
        match self {
            RoomSpot::Look | RoomSpot::Ask | RoomSpot::Wait => Access::load(at),
            // keeps IsCounted of heap_world, IsPhased, Target and KeepsCopies
            RoomSpot::Raise { found } => Access::exchange(at, found, found + 1),
            // keeps IsCounted of heap_world and KeepsCopies
            RoomSpot::Lower => Access::sub(at, 1),
            // keeps IsCounted of heap_world, AreCaredFor and KeepsCopies
            RoomSpot::Mark { found } => Access::exchange(at, found, marked(found)),
            RoomSpot::Outside | RoomSpot::Inside | RoomSpot::Stopped => unreachable!(),
        }
    }

    /// Where it stands after its access, by the word that it has found; at rest it stays.
    pub fn after(self, got: u64) -> RoomSpot
        ensures row { result ≡ rows.next_at self got }
        ensures clear { spots.raises_clear self ≡ true → spots.raises_clear result ≡ true }
    {
        match self {
            RoomSpot::Look if !is_out_of_room(got) => RoomSpot::Raise { found: got },
            RoomSpot::Look if count_of(got) == 0 => RoomSpot::Stopped,
            RoomSpot::Look => RoomSpot::Look,
            RoomSpot::Raise { found } if got == found => RoomSpot::Inside,
            RoomSpot::Raise { .. } => RoomSpot::Look,
            RoomSpot::Lower => RoomSpot::Outside,
            RoomSpot::Ask => RoomSpot::Mark { found: got },
            RoomSpot::Mark { found } if got == found => RoomSpot::Wait,
            RoomSpot::Mark { .. } => RoomSpot::Ask,
            RoomSpot::Wait if count_of(got) == 0 => RoomSpot::Stopped,
            _ => self,
        }
    }

    /// What the step says that finds this word.
    pub fn says(self, got: u64) -> Took
        ensures { result ≡ rows.says_at self got }
    {
        match self {
            RoomSpot::Look if !is_out_of_room(got) => Took::More,
            RoomSpot::Look if count_of(got) > 0 => Took::Again,
            RoomSpot::Raise { found } if got != found => Took::Again,
            RoomSpot::Ask => Took::More,
            RoomSpot::Mark { found } if got == found => Took::More,
            RoomSpot::Mark { .. } => Took::Again,
            RoomSpot::Wait if count_of(got) > 0 => Took::Again,
            _ => Took::Done,
        }
    }
}
