ghost use Rattle.std.specs.Prelude.{◌≡◌, ◌<◌, ◌+◌};

use crate::out::leave_access;
use heap_words::{Access, Config, Place, Took};

/// A mutator or helper that leaves the heap, in one step.
#[derive(Drop)]
pub struct Leave {
    config: Config,
    seat: usize,
    is_done: bool,
    ghost is_seat: { seat < config.mutators + config.helpers },
}

impl Leave {
    ghost use Rattle.std.specs.Prelude.{false, true};
    ghost use Rattle.heap_words.specs.Access.{table_index};
    ghost use Rattle.heap_words.specs.Words.{table_words};
    ghost use Rattle.heap_words.specs.Touch.{placed};
    ghost use Rattle.handshake.specs.EnterRows.{leave_touch};
    ghost use Rattle.handshake.specs.Seen.{seat_of_leave, has_left};

    /// A machine of this seat, counted from 0: the mutators come first, then the helpers.
    pub fn new(config: Config, seat: usize) -> Leave
        requires { seat < config.mutators + config.helpers }
        ensures seat { seat_of_leave result ≡ record { config = config; number = seat } }
        ensures going { has_left result ≡ false }
    {
        Leave {
            config,
            seat,
            is_done: false,
        }
    }

    /// Whether it has left. It makes no step then.
    pub fn is_done(&self) -> bool
        ensures { result ≡ has_left self.now }
    {
        self.is_done
    }

    /// The place of its access.
    pub fn place(&self) -> Place
        requires { has_left self.now ≡ false }
        ensures { result ≡ Place.LV }
    {
        Place::LV
    }

    /// The access of its step.
    pub fn plan(&self) -> Access
        requires { has_left self.now ≡ false }
        ensures row { let seat = seat_of_leave self.now in result ≡ placed seat.config (leave_touch seat.number) }
        ensures inside { table_index result < table_words (seat_of_leave self.now).config }
    {
        leave_access(self.config, self.seat)
    }

    /// Goes on with the word that its access has found, whatever it is.
    pub fn took(&mut self, _got: u64) -> Took
        requires { has_left self.old ≡ false }
        ensures left { has_left self.new ≡ true }
        ensures seat { seat_of_leave self.new ≡ seat_of_leave self.old }
        ensures says { result ≡ Took.Done }
    {
        self.is_done = true;
        Took::Done
    }
}
