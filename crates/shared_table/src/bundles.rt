ghost use Rattle.std.specs.Prelude.{◌≡◌, ◌<◌, [], length, IfOk};
ghost use Rattle.std.specs.Slots.{slots_items, slots_len, IsFull};
ghost use Rattle.heap_words.specs.Steps.{IsReached};
ghost use Rattle.shared_table.specs.Views.{whole, machines_of, machines_picked, machines_left, merged, is_dealt_to, HasAllMachines};

use crate::machines::{Cut, Machines, Parts, SharedWords, StepsTable, Union, ViewSeat};
use atomic_table::{Closed, Table};
use std::alloc::{AllocError, Global};

/// A table that begins with these words, the opening's, and one seat with all machines. An error is want of memory.
pub fn open_table<R, O, K, M: Machines<R, O, K>>(
    alloc: Global,
    words: &[u64],
    key: &K,
) -> Result<(StepsTable<R, O, K, M>, ViewSeat<R>), AllocError>
    requires { words.now ≡ (M.opening key.now).words }
    ensures { IfOk result (λ opened. (opened.0.shared.key ≡ key.now) × (opened.0.shared.table_id.words ≡ length words.now) × (opened.0.shared.table_id.slots ≡ 0) × (opened.1.table_id ≡ opened.0.shared.table_id) × (opened.1.me ≡ (whole (M.opening key.now).machines, []))) }
{
    Table::of_words(alloc, words, key)
}

/// Gives the machines of one bundle, of so many, to a seat of their own: those whose numbers have the remainder `bundle`.
pub fn deal_bundle<R, O, K, M: Machines<R, O, K>, G: Cut>(
    table: &SharedWords<R, O, K, M>,
    seat: &mut ViewSeat<R>,
    bundles: usize,
    bundle: usize,
) -> ViewSeat<R>
    requires table { (seat.old.table_id ≡ table.now.table_id) × (0 < table.now.table_id.words) }
    requires which { (G.bundles ≡ bundles) × (G.bundle ≡ bundle) }
    ensures kept { (seat.new.table_id ≡ seat.old.table_id) × (seat.new.me ≡ (machines_left (is_dealt_to bundles bundle) seat.old.me.0, seat.old.me.1)) }
    ensures dealt { (result.table_id ≡ seat.old.table_id) × (result.me ≡ (machines_picked (is_dealt_to bundles bundle) seat.old.me.0, [])) }
{
    table.split_seat::<Parts<G>>(seat)
}

/// Takes in the machines of another seat.
pub fn join_bundle<R, O, K, M: Machines<R, O, K>>(
    table: &SharedWords<R, O, K, M>,
    seat: &mut ViewSeat<R>,
    other: ViewSeat<R>,
)
    requires table { (seat.old.table_id ≡ table.now.table_id) × (other.table_id ≡ table.now.table_id) × (0 < table.now.table_id.words) }
    requires slots { other.me.1 ≡ [] }
    ensures { (seat.new.table_id ≡ seat.old.table_id) × (seat.new.me ≡ (merged seat.old.me.0 other.me.0, seat.old.me.1)) }
{
    table.join_seat::<Union>(seat, other);
}

/// Ends the sharing, by a seat that has all machines: some events lead from the opening to just these words and machines.
pub fn close_table<R, O, K, M: Machines<R, O, K>>(
    table: StepsTable<R, O, K, M>,
    seat: ViewSeat<R>,
) -> Closed<(), Global>
    requires table { seat.table_id ≡ table.shared.table_id }
    requires all { HasAllMachines (length (M.opening table.shared.key).machines) seat.me.0 }
    ensures words { IsFull result.words × (slots_len result.words ≡ table.shared.table_id.words) }
    ensures slots { slots_len result.slots ≡ table.shared.table_id.slots }
    ensures reached { IsReached (M.kind table.shared.key) (M.opening table.shared.key) (record { words = slots_items result.words; machines = machines_of seat.me.0 }) }
{
    table.close_with(seat)
}
