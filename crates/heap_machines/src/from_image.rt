//! Words and machines of a heap that begins from an image.

ghost use Rattle.std.specs.Prelude.{◌≡◌, ℕ, ◌+◌, ◌<◌, length, map, All, IfOk};
ghost use Rattle.std.specs.List.{range_with_len};
ghost use Rattle.heap_words.specs.Ranges.{seat_count};
ghost use Rattle.heap_words.specs.Words.{Word};
ghost use Rattle.shen_graph.specs.declared.order.Order.TheVariants.{Nothing};
ghost use Rattle.image_graph.specs.State.{config_of, words_of, memory_of};
ghost use Rattle.heap_machines.specs.Shown.{shown, order_of, config_of as machine_config};
ghost use Rattle.heap_machines.specs.FromImage.{machine_from};

use crate::machine::Machine;
use collector_rows::Helper;
use control::Control;
use heap_words::{Config, NoMemory};
use image_graph::Image;
use mutator::Mutator;
use std::alloc::Global;

/// The words of an image, in the order of their places. The error is that memory for them was refused.
pub fn words_from(alloc: Global, image: &Image) -> Result<Vec<u64>, NoMemory>
    ensures { IfOk result (λ words. words.items ≡ words_of image.now) }
{
    let mut words = Vec::new(alloc);
    for at in 0..image.config().table_words() {
        let Ok(()) = words.push(image.word(at)) else {
            return Err(NoMemory);
        };
    }
    Ok(words)
}

// A mutator, whose thread has made so many objects before, or a helper.
fn machine_at(config: Config, counts: &[u32], number: usize) -> Machine
    requires counts { length counts.now ≡ config.mutators }
    requires number { number < config.mutators + config.helpers }
    ensures shown { (memory : Word → ℕ) → shown result ≡ machine_from config counts.now memory number }
    ensures heap { machine_config result ≡ config }
    ensures order { order_of result ≡ Nothing }
{
    if number < config.mutators() {
        Machine::Mutator(Mutator::after(config, number, counts[number]))
    } else {
        Machine::Helper(Helper::new(config, number - config.mutators()))
    }
}

/// The machines of the image's heap: each mutator's thread has made so many objects before, and the control has seen the
/// image's phase and free word. The error is that memory for them was refused.
pub fn machines_from(alloc: Global, image: Image, counts: &[u32]) -> Result<Vec<Machine>, NoMemory>
    requires { length counts.now ≡ (config_of image).mutators }
    ensures machines { IfOk result (λ machines. map shown machines.items ≡ map (machine_from (config_of image) counts.now (memory_of image)) (range_with_len 0 (seat_count (config_of image).mutators (config_of image).helpers))) }
    ensures heap { IfOk result (λ machines. All (λ machine. machine_config machine ≡ config_of image) machines.items) }
    ensures orders { IfOk result (λ machines. All (λ machine. order_of machine ≡ Nothing) machines.items) }
{
    let config = image.config();
    let mut machines = Vec::new(alloc);
    for number in 0..config.mutators() + config.helpers() {
        let machine = machine_at(config, counts, number);
        let Ok(()) = machines.push(machine) else {
            return Err(NoMemory);
        };
    }
    let control = Machine::Control(Control::new(image));
    let Ok(()) = machines.push(control) else {
        return Err(NoMemory);
    };
    Ok(machines)
}
