ghost use Rattle.std.specs.Prelude.{◌≡◌, ◌<◌, true, Some};
ghost use Rattle.heap_words.specs.Access.{table_index};
ghost use Rattle.shared_table.specs.Views.{machine_of};
ghost use Rattle.shared_table.specs.Rule.{Took};

use crate::machines::{Machines, SharedWords, Turn, Turns, ViewSeat};
use heap_words::Access;

/// Makes the access of the next step of the seat's machine `number` under this order, and returns the word that it found.
/// The access is one of any form; a store is a swap, so that the word before it is known. Called with `Brand` for `G`, whose
/// members the caller's proof picks from the arguments.
pub fn make_step<R, O, K, M: Machines<R, O, K>, G: Turn<K, O>>(
    table: &SharedWords<R, O, K, M>,
    seat: &mut ViewSeat<R>,
    number: usize,
    order: &O,
    access: Access,
) -> u64
    requires table { seat.old.table_id ≡ table.now.table_id }
    requires inside { table_index access < table.now.table_id.words }
    requires turn { (G.key ≡ Some table.now.key) × (G.number ≡ number) × (G.order ≡ Some order.now) }
    requires machine { (machine : R) × (machine_of seat.old.me.0 number ≡ Some machine) × ((M.kind table.now.key).takes machine order.now ≡ true) × ((M.kind table.now.key).plan machine order.now ≡ access) }
    ensures table { (seat.new.table_id ≡ seat.old.table_id) × (seat.new.id ≡ seat.old.id) }
    ensures took { Took (M.kind table.now.key) (M.opening table.now.key) number order.now seat.old.me result seat.new.me }
{
    match access {
        Access::Load { at } => table.load::<Turns<R, O, K, M, G>>(seat, at),
        Access::Store { at, value } | Access::Swap { at, value } => {
            table.swap::<Turns<R, O, K, M, G>>(seat, at, value)
        }
        Access::Add { at, value } => table.fetch_add::<Turns<R, O, K, M, G>>(seat, at, value),
        Access::Sub { at, value } => table.fetch_sub::<Turns<R, O, K, M, G>>(seat, at, value),
        Access::And { at, value } => table.fetch_and::<Turns<R, O, K, M, G>>(seat, at, value),
        Access::Or { at, value } => table.fetch_or::<Turns<R, O, K, M, G>>(seat, at, value),
        Access::Exchange { at, expect, value } => {
            table.compare_exchange::<Turns<R, O, K, M, G>>(seat, at, expect, value)
        }
    }
}
