ghost use Rattle.std.specs.Prelude.{◌≡◌, true};
ghost use Rattle.evac_room.specs.Spot.{raises_clear, is_entering};

use crate::room::Room;
use crate::spot::RoomSpot;
use heap_words::{Access, Config, Place, Took};

/// A copier that asks to copy. Each step is one access of the word that counts the copiers.
#[derive(Drop)]
pub struct EnterEvac {
    config: Config,
    spot: RoomSpot,
    ghost entering: { is_entering spot ≡ true },
    // One more copier never reaches bit 63.
    ghost clear: { raises_clear spot ≡ true },
}

impl EnterEvac {
    ghost use Rattle.std.specs.Prelude.{false, Some, ◌↔◌, ◌<◌};
    ghost use Rattle.heap_words.specs.Access.{table_index};
    ghost use Rattle.heap_words.specs.Words.{table_words};
    ghost use Rattle.heap_words.specs.Touch.{placed};
    ghost use Rattle.heap_words.specs.Counter.{IsQuiet};
    ghost use Rattle.evac_room.specs.Spot.{is_ended};
    ghost use Rattle.evac_room.specs.Rows.{place_at, touch_at, next_at, says_at};
    ghost use Rattle.evac_room.specs.Seen.{spot_of_enter, config_of_enter, room_at};

    /// A copier that looks at the counter next.
    pub fn new(config: Config) -> EnterEvac
        ensures spot { spot_of_enter result ≡ RoomSpot.Look }
        ensures config { config_of_enter result ≡ config }
    {
        EnterEvac {
            config,
            spot: RoomSpot::Look,
        }
    }

    /// Whether it is done. It makes no step then.
    pub fn is_done(&self) -> bool
        ensures { result ≡ is_ended (spot_of_enter self.now) }
    {
        self.spot.is_ended()
    }

    /// The place of its next access.
    pub fn place(&self) -> Place
        requires { is_ended (spot_of_enter self.now) ≡ false }
        ensures { result ≡ place_at (spot_of_enter self.now) }
    {
        self.spot.place()
    }

    /// The access of its next step.
    pub fn plan(&self) -> Access
        requires { is_ended (spot_of_enter self.now) ≡ false }
        ensures row { result ≡ placed (config_of_enter self.now) (touch_at (spot_of_enter self.now)) }
        ensures inside { table_index result < table_words (config_of_enter self.now) }
    {
        self.spot.access(self.config)
    }

    /// Goes on with the word that its access has found; every word is fit.
    pub fn took(&mut self, got: u64) -> Took
        requires { is_ended (spot_of_enter self.old) ≡ false }
        ensures spot { spot_of_enter self.new ≡ next_at (spot_of_enter self.old) got }
        ensures config { config_of_enter self.new ≡ config_of_enter self.old }
        ensures answer { result ≡ says_at (spot_of_enter self.old) got }
        ensures done { (result ≡ Took.Done) ↔ (is_ended (spot_of_enter self.new) ≡ true) }
        ensures stopped { (spot_of_enter self.new ≡ RoomSpot.Stopped) ↔ ((spot_of_enter self.old ≡ RoomSpot.Look) × IsQuiet got) }
    {
        let before = self.spot;
        self.spot = before.after(got);
        before.says(got)
    }

    /// Whether it may copy, once it is done.
    pub fn answer(&self) -> Room
        requires { is_ended (spot_of_enter self.now) ≡ true }
        ensures { room_at (spot_of_enter self.now) ≡ Some result }
    {
        match self.spot {
            RoomSpot::Inside => Room::Inside,
            _ => Room::Stopped,
        }
    }
}
