ghost use Rattle.std.specs.Prelude.{ℕ, Option, None, []};
ghost use Rattle.heap_words.specs.Steps.{MachineKind, Stage};
ghost use Rattle.shared_table.specs.Views.{whole, machines_picked, machines_left, merged};
ghost use Rattle.shared_table.specs.Rule.{Rule, TookAs};

use atomic_table::{Join, Play, Seat, Shared, Split, Table, TableRule};
use std::alloc::Global;
use std::collections::LinkedList;
use std::marker::{Brand, PhantomData};

/// What a seat of the table knows: under each number the machine, if it is one of the seat's own. No value of it is made.
pub type View<R> = LinkedList<Option<R>>;

/// A table of words for such machines, with the memory that it lies in.
pub type StepsTable<R, O, K, M> = Table<(), View<R>, K, StepsRule<R, O, M>, Global>;

/// The table as threads see it.
pub type SharedWords<R, O, K, M> = Shared<(), View<R>, K, StepsRule<R, O, M>>;

/// The right to make the steps of the machines of its view. It has no bytes.
pub type ViewSeat<R> = Seat<(), View<R>>;

/// A kind of machine by a key, with records `R` and orders `O`, and what a table of them begins with.
pub trait Machines<R, O, K> {
    ghost kind: { K → MachineKind R O };

    ghost opening: { K → Stage R };
}

/// The rule of a table of such machines: some events lead from its opening to its words, and to the machines of all
/// seats, each of which is in one view.
pub struct StepsRule<R, O, M> {
    marker: PhantomData<(R, O, M)>,
}

impl<R, O, K, M: Machines<R, O, K>> TableRule<(), View<R>, K> for StepsRule<R, O, M> {
    ghost holds = { λ key. Rule (M.kind key) (M.opening key) };

    ghost first = { λ key. whole (M.opening key).machines };
}

/// Whose turn it is at a step: of a table with this key, the machine with this number, under this order.
pub trait Turn<K, O> {
    ghost key: { Option K };

    ghost number: { ℕ };

    ghost order: { Option O };
}

impl<K, O> Turn<K, O> for Brand {
    ghost key = { None };

    ghost number = { 0 };

    ghost order = { None };
}

/// What a step of a machine tells.
pub struct Turns<R, O, K, M, G> {
    marker: PhantomData<(R, O, K, M, G)>,
}

impl<R, O, K, M: Machines<R, O, K>, G: Turn<K, O>> Play<(), View<R>> for Turns<R, O, K, M, G> {
    ghost then = { λ _. TookAs M.kind M.opening G.key G.number G.order };
}

/// How a bundle is dealt from others: of so many bundles, which one.
pub trait Cut {
    ghost bundles: { ℕ };

    ghost bundle: { ℕ };
}

impl Cut for Brand {
    ghost bundles = { 0 };

    ghost bundle = { 0 };
}

/// The machines of a bundle, and those that are left.
pub struct Parts<G> {
    marker: PhantomData<G>,
}

impl<R, G: Cut> Split<View<R>> for Parts<G> {
    ghost use Rattle.shared_table.specs.Views.{is_dealt_to};

    ghost left = { machines_left (is_dealt_to G.bundles G.bundle) };

    ghost right = { machines_picked (is_dealt_to G.bundles G.bundle) };
}

/// The machines of two bundles, after which one has none.
pub struct Union;

impl<R> Join<View<R>> for Union {
    ghost both = { merged };

    ghost spent = { [] };
}
