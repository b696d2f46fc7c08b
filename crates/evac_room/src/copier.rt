ghost use Rattle.std.specs.Prelude.{◌≡◌, ℕ};
ghost use Rattle.evac_room.specs.Copier.{spot_of};

use crate::enter::EnterEvac;
use crate::leave::LeaveEvac;
use crate::out_of_room::OutOfRoom;
use crate::room::Room;
use crate::wish::{Copying, Wish};
use heap_words::{Access, Config, Took};

// One copier: at rest, or with the machine of its call, which also says how its last call ended.
#[derive(Drop)]
pub(crate) enum Copier {
    Outside,
    Entering(EnterEvac),
    Leaving(LeaveEvac),
    Stopping(OutOfRoom),
}

impl Copier {
    ghost use Rattle.std.specs.Prelude.{true, false};
    ghost use Rattle.heap_words.specs.Access.{made_of};
    ghost use Rattle.heap_words.specs.Touch.{formed};
    ghost use Rattle.evac_room.specs.Spot.{is_ended};
    ghost use Rattle.evac_room.specs.Rows.{form_at, next_at, IsFit};
    ghost use Rattle.evac_room.specs.Core.{takes_at, wish_begun, copying_at};

    // Whether its call has ended.
    fn is_ended(&self) -> bool
        ensures { result ≡ is_ended (spot_of self.now) }
    {
        match self {
            Copier::Outside => true,
            Copier::Entering(enter) => enter.is_done(),
            Copier::Leaving(leave) => leave.is_done(),
            Copier::Stopping(stop) => stop.is_done(),
        }
    }

    // Whether it takes the wish.
    pub(crate) fn takes(&self, wish: Wish) -> bool
        ensures { result ≡ takes_at (spot_of self.now) wish }
    {
        if !self.is_ended() {
            return true;
        }
        let inside = match self {
            Copier::Entering(enter) => matches!(enter.answer(), Room::Inside),
            Copier::Outside | Copier::Leaving(_) | Copier::Stopping(_) => false,
        };
        match wish {
            Wish::Enter => !inside,
            Wish::Leave | Wish::NoRoom => inside,
        }
    }

    // At rest it takes the wish.
    fn begin(&mut self, config: Config, wish: Wish)
        requires { takes_at (spot_of self.old) wish ≡ true }
        ensures begun { spot_of self.new ≡ wish_begun (spot_of self.old) wish }
        ensures going { is_ended (spot_of self.new) ≡ false }
    {
        if self.is_ended() {
            *self = match wish {
                Wish::Enter => Copier::Entering(EnterEvac::new(config)),
                Wish::Leave => Copier::Leaving(LeaveEvac::new(config)),
                Wish::NoRoom => Copier::Stopping(OutOfRoom::new(config)),
            };
        }
    }

    // The access of its next step.
    fn plan(&self) -> Access
        requires { is_ended (spot_of self.now) ≡ false }
        ensures { (found : ℕ) → made_of result found ≡ formed (form_at (spot_of self.now)) found }
    {
        match self {
            Copier::Outside => unreachable!(),
            Copier::Entering(enter) => enter.plan(),
            Copier::Leaving(leave) => leave.plan(),
            Copier::Stopping(stop) => stop.plan(),
        }
    }

    // Goes on with the word that its access has found.
    fn took(&mut self, got: u64) -> Copying
        requires going { is_ended (spot_of self.old) ≡ false }
        requires fit { IsFit (spot_of self.old) got }
        ensures spot { spot_of self.new ≡ next_at (spot_of self.old) got }
        ensures says { result ≡ copying_at (spot_of self.old) got }
    {
        match self {
            Copier::Outside => unreachable!(),
            Copier::Entering(enter) => match enter.took(got) {
                Took::More => Copying::More,
                Took::Again => Copying::Again,
                Took::Done => match enter.answer() {
                    Room::Inside => Copying::Inside,
                    Room::Stopped => Copying::Stopped,
                },
            },
            Copier::Leaving(leave) => match leave.took(got) {
                Took::More => Copying::More,
                Took::Again => Copying::Again,
                Took::Done => Copying::Outside,
            },
            Copier::Stopping(stop) => match stop.took(got) {
                Took::More => Copying::More,
                Took::Again => Copying::Again,
                Took::Done => Copying::Stopped,
            },
        }
    }

    // Makes its next access of the word.
    pub(crate) fn advance(&mut self, config: Config, word: &mut u64, wish: Wish) -> Copying
        requires wish { takes_at (spot_of self.old) wish ≡ true }
        requires fit { IsFit (wish_begun (spot_of self.old) wish) word.old }
        ensures spot { spot_of self.new ≡ next_at (wish_begun (spot_of self.old) wish) word.old }
        ensures word { word.new ≡ formed (form_at (wish_begun (spot_of self.old) wish)) word.old }
        ensures says { result ≡ copying_at (wish_begun (spot_of self.old) wish) word.old }
    {
        self.begin(config, wish);
        let access = self.plan();
        let found = *word;
        *word = access.made(found);
        self.took(found)
    }
}
