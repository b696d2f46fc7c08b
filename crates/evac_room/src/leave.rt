ghost use Rattle.std.specs.Prelude.{◌≡◌, true};
ghost use Rattle.evac_room.specs.Spot.{is_leaving};

use crate::spot::RoomSpot;
use heap_words::{Access, Config, Place, Took};

/// A copier that has copied, and takes itself off the counter in one step.
#[derive(Drop)]
pub struct LeaveEvac {
    config: Config,
    spot: RoomSpot,
    ghost leaving: { is_leaving spot ≡ true },
}

impl LeaveEvac {
    ghost use Rattle.std.specs.Prelude.{false, ◌<◌};
    ghost use Rattle.heap_words.specs.Access.{table_index};
    ghost use Rattle.heap_words.specs.Words.{table_words};
    ghost use Rattle.heap_words.specs.Touch.{placed};
    ghost use Rattle.evac_room.specs.Spot.{is_ended};
    ghost use Rattle.evac_room.specs.Rows.{place_at, touch_at, next_at, says_at, IsFit};
    ghost use Rattle.evac_room.specs.Seen.{spot_of_leave, config_of_leave};

    /// A copier that takes itself off the counter next.
    pub fn new(config: Config) -> LeaveEvac
        ensures spot { spot_of_leave result ≡ RoomSpot.Lower }
        ensures config { config_of_leave result ≡ config }
    {
        LeaveEvac {
            config,
            spot: RoomSpot::Lower,
        }
    }

    /// Whether it is done. It makes no step then.
    pub fn is_done(&self) -> bool
        ensures { result ≡ is_ended (spot_of_leave self.now) }
    {
        self.spot.is_ended()
    }

    /// The place of its access.
    pub fn place(&self) -> Place
        requires { is_ended (spot_of_leave self.now) ≡ false }
        ensures { result ≡ place_at (spot_of_leave self.now) }
    {
        self.spot.place()
    }

    /// The access of its step.
    pub fn plan(&self) -> Access
        requires { is_ended (spot_of_leave self.now) ≡ false }
        ensures row { result ≡ placed (config_of_leave self.now) (touch_at (spot_of_leave self.now)) }
        ensures inside { table_index result < table_words (config_of_leave self.now) }
    {
        self.spot.access(self.config)
    }

    /// Goes on with the word that its access has found. A word is fit if it is not 0.
    pub fn took(&mut self, got: u64) -> Took
        requires busy { is_ended (spot_of_leave self.old) ≡ false }
        requires fit { IsFit (spot_of_leave self.old) got }
        ensures spot { spot_of_leave self.new ≡ next_at (spot_of_leave self.old) got }
        ensures config { config_of_leave self.new ≡ config_of_leave self.old }
        ensures answer { result ≡ says_at (spot_of_leave self.old) got }
    {
        let before = self.spot;
        self.spot = before.after(got);
        before.says(got)
    }
}
