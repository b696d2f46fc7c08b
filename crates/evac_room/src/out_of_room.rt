ghost use Rattle.std.specs.Prelude.{◌≡◌, true};
ghost use Rattle.evac_room.specs.Spot.{is_stopping};

use crate::room::Room;
use crate::spot::RoomSpot;
use heap_words::{Access, Config, Place, Took};

/// A copier that found no room: it sets bit 63 of the counter and takes itself off, and waits until nobody copies.
#[derive(Drop)]
pub struct OutOfRoom {
    config: Config,
    spot: RoomSpot,
    ghost stopping: { is_stopping spot ≡ true },
}

impl OutOfRoom {
    ghost use Rattle.std.specs.Prelude.{false, ◌<◌, ◌↔◌};
    ghost use Rattle.heap_words.specs.Access.{table_index};
    ghost use Rattle.heap_words.specs.Words.{table_words};
    ghost use Rattle.heap_words.specs.Touch.{placed};
    ghost use Rattle.heap_words.specs.Counter.{count_of as counted_in};
    ghost use Rattle.evac_room.specs.Spot.{is_ended};
    ghost use Rattle.evac_room.specs.Rows.{place_at, touch_at, next_at, says_at};
    ghost use Rattle.evac_room.specs.Seen.{spot_of_stop, config_of_stop};

    /// A copier that looks at the counter next, to mark it.
    pub fn new(config: Config) -> OutOfRoom
        ensures spot { spot_of_stop result ≡ RoomSpot.Ask }
        ensures config { config_of_stop result ≡ config }
    {
        OutOfRoom {
            config,
            spot: RoomSpot::Ask,
        }
    }

    /// Whether it is done. It makes no step then.
    pub fn is_done(&self) -> bool
        ensures { result ≡ is_ended (spot_of_stop self.now) }
    {
        self.spot.is_ended()
    }

    /// The place of its next access.
    pub fn place(&self) -> Place
        requires { is_ended (spot_of_stop self.now) ≡ false }
        ensures { result ≡ place_at (spot_of_stop self.now) }
    {
        self.spot.place()
    }

    /// The access of its next step.
    pub fn plan(&self) -> Access
        requires { is_ended (spot_of_stop self.now) ≡ false }
        ensures row { result ≡ placed (config_of_stop self.now) (touch_at (spot_of_stop self.now)) }
        ensures inside { table_index result < table_words (config_of_stop self.now) }
    {
        self.spot.access(self.config)
    }

    /// Goes on with the word that its access has found; every word is fit.
    pub fn took(&mut self, got: u64) -> Took
        requires { is_ended (spot_of_stop self.old) ≡ false }
        ensures spot { spot_of_stop self.new ≡ next_at (spot_of_stop self.old) got }
        ensures config { config_of_stop self.new ≡ config_of_stop self.old }
        ensures answer { result ≡ says_at (spot_of_stop self.old) got }
        ensures done { (result ≡ Took.Done) ↔ (is_ended (spot_of_stop self.new) ≡ true) }
        ensures stopped { (result ≡ Took.Done) ↔ ((spot_of_stop self.old ≡ RoomSpot.Wait) × (counted_in got ≡ 0)) }
    {
        let before = self.spot;
        self.spot = before.after(got);
        before.says(got)
    }

    /// What it may do once it is done: never copy.
    pub fn answer(&self) -> Room
        requires { is_ended (spot_of_stop self.now) ≡ true }
        ensures { result ≡ Room.Stopped }
    {
        Room::Stopped
    }
}
