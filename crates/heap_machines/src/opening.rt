ghost use Rattle.std.specs.Prelude.{◌≡◌, map, All, IfOk};
ghost use Rattle.std.specs.List.{range_with_len};
ghost use Rattle.heap_words.specs.Ranges.{seat_count};
ghost use Rattle.shen_graph.specs.declared.order.Order.TheVariants.{Nothing};
ghost use Rattle.step_core.specs.Opening.{opening_machine};
ghost use Rattle.heap_machines.specs.Shown.{shown, order_of, config_of};

use crate::machine::Machine;
use heap_words::{Config, NoMemory};
use std::alloc::Global;

/// The machines of a heap before the first event, by their numbers. The error is that memory for them was refused.
pub fn open_machines(alloc: Global, config: Config) -> Result<Vec<Machine>, NoMemory>
    ensures machines { IfOk result (λ machines. map shown machines.items ≡ map (opening_machine config) (range_with_len 0 (seat_count config.mutators config.helpers))) }
    ensures heap { IfOk result (λ machines. All (λ machine. config_of machine ≡ config) machines.items) }
    ensures orders { IfOk result (λ machines. All (λ machine. order_of machine ≡ Nothing) machines.items) }
{
    let mut machines = Vec::new(alloc);
    for number in 0..config.seats() {
        let machine = Machine::open(alloc, config, number)?;
        let Ok(()) = machines.push(machine) else {
            return Err(NoMemory);
        };
    }
    Ok(machines)
}
