ghost use Rattle.table_heap.specs.Core.{table_kind, table_start};

use crate::key::HeapKey;
use shared_table::Machines;
use shen_graph::Order;
use std::marker::Model;

/// A machine of a heap, with what memory does not keep of it, as its events see it, and how many steps it has made. No value of
/// it is made.
pub struct Acting;

impl Model for Acting {
    ghost use Rattle.step_core.specs.Actor.{Actor};
    ghost use Rattle.shared_table.specs.Counted.{Counted, at_start};
    ghost use Rattle.table_heap.specs.Core.{nobody};

    ghost Value = { Counted Actor };

    ghost view = { λ _. at_start nobody };
}

/// The machines of heaps as kinds of machine. A table of them begins by its key.
pub struct OfHeaps;

impl Machines<Acting, Order, HeapKey> for OfHeaps {
    ghost kind = { table_kind };

    ghost opening = { table_start };
}
