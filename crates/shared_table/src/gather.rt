ghost use Rattle.std.specs.Prelude.{◌≡◌, ◌<◌, [], Option, Some, None, length};
ghost use Rattle.shared_table.specs.Views.{merged, HasAllMachines};
ghost use Rattle.shared_table.specs.Gathered.{StandInSomeRun};

use crate::exchange::exchange_in_one_table;
use crate::{Machines, SharedWords, Union, View, ViewSeat};
use atomic_table::{Play, Split};
use std::marker::{Brand, PhantomData};

/// A new seat that has no machine, beside one that keeps all of its own.
pub struct Spare;

impl<R> Split<View<R>> for Spare {
    ghost use Rattle.std.specs.Prelude.{false};
    ghost use Rattle.shared_table.specs.Views.{machines_picked, machines_left};

    ghost left = { machines_left (λ _. false) };

    ghost right = { machines_picked (λ _. false) };
}

/// Takes in the machines of another seat, where it is one of this table. Where it is not, that seat is let go.
pub fn gather_seat<R, O, K, M: Machines<R, O, K>>(
    table: &SharedWords<R, O, K, M>,
    seat: &mut ViewSeat<R>,
    mut other: ViewSeat<R>,
)
    requires table { (seat.old.table_id ≡ table.now.table_id) × (0 < table.now.table_id.words) }
    requires slots { other.me.1 ≡ [] }
    ensures same { (seat.new.table_id ≡ seat.old.table_id) × (seat.new.me.1 ≡ seat.old.me.1) }
    ensures gathered { other.table_id ≡ seat.old.table_id → seat.new.me.0 ≡ merged seat.old.me.0 other.me.0 }
{
    let mut spare = table.split_seat::<Spare>(seat);
    exchange_in_one_table(&mut other, &mut spare);
    table.join_seat::<Union>(seat, spare);
}

/// The key of a table, for what a step tells.
pub trait Keyed<K> {
    ghost key: { Option K };
}

impl<K> Keyed<K> for Brand {
    ghost key = { None };
}

/// What a load tells who has all machines.
pub struct Reads<R, O, K, M, G> {
    marker: PhantomData<(R, O, K, M, G)>,
}

impl<R, O, K, M: Machines<R, O, K>, G: Keyed<K>> Play<(), View<R>> for Reads<R, O, K, M, G> {
    ghost use Rattle.shared_table.specs.Gathered.{TellsOfRun};

    ghost then = { λ _ before _. TellsOfRun M.kind M.opening G.key before };
}

/// Loads a word. Who has all machines knows then that they stand as one run left them. Called with `Brand` for `G`, whose member the
/// caller's proof picks.
pub fn read_run<R, O, K, M: Machines<R, O, K>, G: Keyed<K>>(
    table: &SharedWords<R, O, K, M>,
    seat: &mut ViewSeat<R>,
)
    requires table { (seat.old.table_id ≡ table.now.table_id) × (0 < table.now.table_id.words) }
    requires key { G.key ≡ Some table.now.key }
    ensures same { (seat.new.table_id ≡ seat.old.table_id) × (seat.new.me ≡ seat.old.me) }
    ensures run { HasAllMachines (length (M.opening table.now.key).machines) seat.old.me.0 → StandInSomeRun (M.kind table.now.key) (M.opening table.now.key) seat.old.me.0 }
{
    table.load::<Reads<R, O, K, M, G>>(seat, 0);
}
