ghost use Rattle.std.specs.Prelude.{◌≡◌, ◌<◌, IfOk, IfErr, length, replicate, None};
ghost use Rattle.shared_table.specs.Views.{dealt_to, machines_left, is_dealt_to, merged};

use std::alloc::{AllocError, Global};
use std::mem::swap;

// A place for each number, with no machine.
fn places<T: Drop>(alloc: Global, count: usize) -> Result<Vec<Option<T>>, AllocError>
    ensures { IfOk result (λ places. places.items ≡ replicate count None) }
{
    let mut places = Vec::new(alloc);
    for _ in 0..count {
        places.push(None)?;
    }
    Ok(places)
}

/// Takes out the machines of one bundle, of so many: those whose numbers have the remainder `bundle`. Each stays under its
/// number, in both lists. An error is want of memory, and then nothing was taken out.
pub fn deal_machines<T: Drop>(
    alloc: Global,
    machines: &mut Vec<Option<T>>,
    bundles: usize,
    bundle: usize,
) -> Result<Vec<Option<T>>, AllocError>
    requires { 0 < bundles }
    ensures dealt { IfOk result (λ dealt. dealt.items ≡ dealt_to bundles bundle machines.old.items) }
    ensures left { IfOk result (λ _. machines.new.items ≡ machines_left (is_dealt_to bundles bundle) machines.old.items) }
    ensures refused { IfErr result (λ _. machines.new ≡ machines.old) }
{
    let mut dealt = places(alloc, machines.len())?;
    for number in 0..machines.len() {
        if number % bundles == bundle {
            swap(&mut dealt[number], &mut machines[number]);
        }
    }
    Ok(dealt)
}

/// Takes in the machines of another bundle. Where both have one under a number, its own stays.
pub fn join_machines<T: Drop>(machines: &mut Vec<Option<T>>, mut others: Vec<Option<T>>)
    requires { length machines.old.items ≡ length others.items }
    ensures { machines.new.items ≡ merged machines.old.items others.items }
{
    for number in 0..machines.len() {
        if machines[number].is_none() {
            swap(&mut machines[number], &mut others[number]);
        }
    }
}
