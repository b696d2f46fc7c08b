ghost use Rattle.std.specs.Prelude.{◌≡◌, ◌<◌, ◌+◌, true, false};
ghost use Rattle.heap_words.specs.Access.{table_index};
ghost use Rattle.heap_words.specs.Words.{table_words};
ghost use Rattle.heap_words.specs.Touch.{placed};
ghost use Rattle.heap_words.specs.Fits.{touch_fits};
ghost use Rattle.handshake.specs.StopRows as rows;

use crate::values::{OUT, WANTED};
use heap_words::{Access, Config, Place, Took};

/// Where the control stands that stops the mutators and helpers for a pause.
#[derive(Clone, Copy)]
pub enum StopSpot {
    /// It stores that a pause is wanted.
    Raise,
    /// It waits until the seat is out.
    Check {
        /// The seat, counted from 0: the mutators, then the helpers.
        seat: usize,
    },
    /// All seats are out, and stay out until the pause ends. It makes no access.
    Stopped,
}

impl StopSpot {
    /// The place of the next access. There is none at the end, where it is named as that of the last access.
    pub fn place(self) -> Place
        ensures { result ≡ rows.place_at self }
    {
        match self {
            StopSpot::Raise => Place::P1,
            StopSpot::Check { .. } | StopSpot::Stopped => Place::P2,
        }
    }

    /// Whether all seats are out.
    pub fn is_ended(self) -> bool
        ensures { result ≡ rows.is_ended self }
    {
        matches!(self, StopSpot::Stopped)
    }

    /// The next access. A seat that it checks is one of a mutator or a helper.
    pub fn access(self, config: Config) -> Access
        requires ready { touch_fits config (rows.touch_at self) ≡ true }
        requires busy { rows.is_ended self ≡ false }
        ensures row { result ≡ placed config (rows.touch_at self) }
        ensures inside { table_index result < table_words config }
    {
        match self {
            // keeps IsShaken
            StopSpot::Raise => Access::store(config.pause_at(), WANTED),
            StopSpot::Check { seat } => Access::load(config.state_at(seat)),
            StopSpot::Stopped => unreachable!(),
        }
    }

    /// Where it stands after it, by the word that the access has found; once stopped it stays.
    pub fn after(self, config: Config, got: u64) -> StopSpot
        requires { touch_fits config (rows.touch_at self) ≡ true }
        ensures row { result ≡ rows.next_at config self got }
        ensures ready { touch_fits config (rows.touch_at result) ≡ true }
    {
        match self {
            StopSpot::Raise => StopSpot::Check { seat: 0 },
            StopSpot::Check { seat } if got != OUT => StopSpot::Check { seat },
            StopSpot::Check { seat } => after_seat(config, seat),
            StopSpot::Stopped => StopSpot::Stopped,
        }
    }

    /// What the step says that finds this word: done where it was the last seat, again where it waits on.
    pub fn says(self, config: Config, got: u64) -> Took
        requires { touch_fits config (rows.touch_at self) ≡ true }
        ensures { result ≡ rows.says_at config self got }
    {
        match self {
            StopSpot::Check { .. } if got != OUT => Took::Again,
            StopSpot::Check { seat } if after_seat(config, seat).is_ended() => Took::Done,
            StopSpot::Stopped => Took::Done,
            _ => Took::More,
        }
    }
}

// What follows once the seat is out.
fn after_seat(config: Config, seat: usize) -> StopSpot
    requires { seat < config.mutators + config.helpers }
    ensures row { result ≡ rows.after_seat config seat }
    ensures ready { touch_fits config (rows.touch_at result) ≡ true }
{
    if seat + 1 < config.mutators() + config.helpers() {
        StopSpot::Check { seat: seat + 1 }
    } else {
        StopSpot::Stopped
    }
}
