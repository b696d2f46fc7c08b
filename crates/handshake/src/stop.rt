ghost use Rattle.std.specs.Prelude.{◌≡◌, true};
ghost use Rattle.heap_words.specs.Fits.{touch_fits};
ghost use Rattle.handshake.specs.StopRows.{touch_at};

use crate::stop_spot::StopSpot;
use heap_words::{Access, Config, Place, Took};

/// The control that stops all mutators and helpers for a pause, in steps of one access.
#[derive(Drop)]
pub struct Stop {
    config: Config,
    spot: StopSpot,
    ghost ready: { touch_fits config (touch_at spot) ≡ true },
}

impl Stop {
    ghost use Rattle.std.specs.Prelude.{ℕ, false, ◌≢◌, ◌<◌, ◌↔◌};
    ghost use Rattle.heap_words.specs.Access.{table_index};
    ghost use Rattle.heap_words.specs.Words.{table_words};
    ghost use Rattle.heap_words.specs.Touch.{placed};
    ghost use Rattle.handshake.specs.StopRows.{place_at, next_at, says_at, is_ended};
    ghost use Rattle.handshake.specs.Seen.{config_of_stop, spot_of_stop};

    /// A control that wants a pause.
    pub fn new(config: Config) -> Stop
        ensures config { config_of_stop result ≡ config }
        ensures spot { spot_of_stop result ≡ StopSpot.Raise }
    {
        Stop {
            config,
            spot: StopSpot::Raise,
        }
    }

    /// Whether all others are out. It makes no step then.
    pub fn is_done(&self) -> bool
        ensures { result ≡ is_ended (spot_of_stop self.now) }
    {
        self.spot.is_ended()
    }

    /// The place of its next access.
    pub fn place(&self) -> Place
        requires { is_ended (spot_of_stop self.now) ≡ false }
        ensures { result ≡ place_at (spot_of_stop self.now) }
    {
        self.spot.place()
    }

    /// The access of its next step.
    pub fn plan(&self) -> Access
        requires { is_ended (spot_of_stop self.now) ≡ false }
        ensures row { result ≡ placed (config_of_stop self.now) (touch_at (spot_of_stop self.now)) }
        ensures inside { table_index result < table_words (config_of_stop self.now) }
    {
        self.spot.access(self.config)
    }

    /// Goes on with the word that its access has found; every word is fit.
    pub fn took(&mut self, got: u64) -> Took
        requires { is_ended (spot_of_stop self.old) ≡ false }
        ensures spot { spot_of_stop self.new ≡ next_at (config_of_stop self.old) (spot_of_stop self.old) got }
        ensures config { config_of_stop self.new ≡ config_of_stop self.old }
        ensures says { result ≡ says_at (config_of_stop self.old) (spot_of_stop self.old) got }
        ensures done { (result ≡ Took.Done) ↔ (is_ended (spot_of_stop self.new) ≡ true) }
        ensures again { result ≡ Took.Again → (spot_of_stop self.new ≡ spot_of_stop self.old) × (got ≢ 0) }
        ensures waits { (seat : ℕ) → spot_of_stop self.old ≡ StopSpot.Check seat → got ≢ 0 → result ≡ Took.Again }
    {
        let before = self.spot;
        self.spot = before.after(self.config, got);
        before.says(self.config, got)
    }
}
