ghost use Rattle.std.specs.Prelude.{◌≡◌, ◌≢◌, ◌<◌, None, IfSome};
ghost use Rattle.shen_core.specs.State.{config_of, seats_of, IsUnchanged};
ghost use Rattle.shen_core.specs.Progress.{CanRun, HasTurned};
ghost use Rattle.shen_core.specs.Seen.{said_of, SeesTurn, SettlesTurn};

use crate::plain::Plain;
use heap_machines::Stepped;
use heap_words::{Access, Place};
use shen_graph::{Entry, Work};

/// What memory saw of one event.
#[derive(Clone, Copy)]
pub struct Seen {
    /// The machine, counted from 0: the mutators, the helpers, the control.
    pub number: usize,
    /// Where it stood.
    pub place: Place,
    /// Its access.
    pub access: Access,
    /// The word that the access found.
    pub found: u64,
    /// What the machine said then; it was not idle.
    pub said: Stepped,
    /// The entry of the history that the event settles, if it settles one.
    pub settles: Option<Entry>,
}

/// One turn of a machine, as `Plain::run` gives it: the machine goes on with its call, begins the next command of its script,
/// or ends; the reply of a call that ends is noted. None where the machine is idle.
pub fn turn_seen(plain: &mut Plain, work: &mut Work, number: usize) -> Option<Seen>
    requires number { number < seats_of plain.old }
    requires run { CanRun plain.old work.old }
    ensures run { CanRun plain.new work.new }
    ensures config { config_of plain.new ≡ config_of plain.old }
    ensures turned { HasTurned plain.old work.old number plain.new work.new (said_of result) }
    ensures moved { IfSome result (λ seen. seen.said ≢ Stepped.Idle) }
    ensures idle { result ≡ None → IsUnchanged plain.old plain.new }
    ensures idle_work { result ≡ None → work.new ≡ work.old }
    ensures seen { IfSome result (λ seen. SeesTurn plain.old work.old number seen) }
    ensures settles { IfSome result (λ seen. SettlesTurn plain.old work.old number seen.settles) }
{
    if !plain.order_next(work, number) {
        return None;
    }
    let place = plain.place(number)?;
    let access = plain.plan(number);
    let found = plain.word(access.at());
    let settles = plain.settles(number);
    let said = plain.step(number);
    if let Stepped::Done = said {
        work.told(number, plain.reply(number));
    }
    Some(Seen {
        number,
        place,
        access,
        found,
        said,
        settles,
    })
}
