ghost use Rattle.std.specs.Prelude.{◌≡◌, ◌<◌, ◌+◌};

use crate::enter_spot::EnterSpot;
use heap_words::{Access, Config, Place, Took};

/// A mutator or helper that enters the heap, in steps of one access.
#[derive(Drop)]
pub struct Enter {
    config: Config,
    seat: usize,
    spot: EnterSpot,
    ghost is_seat: { seat < config.mutators + config.helpers },
}

impl Enter {
    ghost use Rattle.std.specs.Prelude.{false, true, ◌≢◌, ◌↔◌};
    ghost use Rattle.heap_words.specs.Access.{table_index};
    ghost use Rattle.heap_words.specs.Words.{table_words};
    ghost use Rattle.heap_words.specs.Touch.{placed};
    ghost use Rattle.handshake.specs.EnterRows.{place_at, touch_at, next_at, says_at, is_ended};
    ghost use Rattle.handshake.specs.Seen.{seat_of_enter, spot_of_enter};

    /// A machine of this seat, counted from 0: the mutators come first, then the helpers.
    pub fn new(config: Config, seat: usize) -> Enter
        requires { seat < config.mutators + config.helpers }
        ensures seat { seat_of_enter result ≡ record { config = config; number = seat } }
        ensures spot { spot_of_enter result ≡ EnterSpot.Raise }
    {
        Enter {
            config,
            seat,
            spot: EnterSpot::Raise,
        }
    }

    /// Whether it is inside. It makes no step then.
    pub fn is_done(&self) -> bool
        ensures { result ≡ is_ended (spot_of_enter self.now) }
    {
        self.spot.is_ended()
    }

    /// The place of its next access.
    pub fn place(&self) -> Place
        requires { is_ended (spot_of_enter self.now) ≡ false }
        ensures { result ≡ place_at (spot_of_enter self.now) }
    {
        self.spot.place()
    }

    /// The access of its next step.
    pub fn plan(&self) -> Access
        requires { is_ended (spot_of_enter self.now) ≡ false }
        ensures row { let seat = seat_of_enter self.now in result ≡ placed seat.config (touch_at seat.number (spot_of_enter self.now)) }
        ensures inside { table_index result < table_words (seat_of_enter self.now).config }
    {
        self.spot.access(self.config, self.seat)
    }

    /// Goes on with the word that its access has found; every word is fit.
    pub fn took(&mut self, got: u64) -> Took
        requires { is_ended (spot_of_enter self.old) ≡ false }
        ensures spot { spot_of_enter self.new ≡ next_at (spot_of_enter self.old) got }
        ensures seat { seat_of_enter self.new ≡ seat_of_enter self.old }
        ensures says { result ≡ says_at (spot_of_enter self.old) got }
        ensures done { (result ≡ Took.Done) ↔ (is_ended (spot_of_enter self.new) ≡ true) }
        ensures again { (result ≡ Took.Again) ↔ ((spot_of_enter self.old ≡ EnterSpot.Await) × (got ≢ 0)) }
    {
        let before = self.spot;
        self.spot = before.after(got);
        before.says(got)
    }
}
