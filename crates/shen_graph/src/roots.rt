ghost use Rattle.std.specs.Prelude.{◌≡◌, None, replicate, IfOk};

use crate::NoMemory;
use crate::name::Name;
use std::alloc::Global;

/// The same roots for each of so many threads.
pub fn alike(
    alloc: Global,
    threads: usize,
    roots: [Option<Name>; 16],
) -> Result<Vec<[Option<Name>; 16]>, NoMemory>
    ensures { IfOk result (λ rows. rows.items ≡ replicate threads roots) }
{
    Ok(vec![in alloc; roots; threads]?)
}

/// So many rows of four empty pin slots.
pub fn slots_alike<T: Copy>(alloc: Global, threads: usize) -> Result<Vec<[Option<T>; 4]>, NoMemory>
    ensures { IfOk result (λ rows. rows.items ≡ replicate threads (replicate 4 None)) }
{
    Ok(vec![in alloc; [None; 4]; threads]?)
}
