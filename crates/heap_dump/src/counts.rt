ghost use Rattle.std.specs.Prelude.{◌≡◌, [], ◌∷◌, ◌++◌, IfOk, OnOk, OnErr};

use shen_graph::NoMemory;
use std::alloc::Global;
use std::marker::Model;

/// How many objects each thread made, that of thread 1 first. Contracts see it as a list of numbers.
#[derive(Drop)]
pub struct Counts {
    counts: Vec<u32>,
}

impl Model for Counts {
    ghost use Rattle.std.specs.Prelude.{ℕ, List};

    ghost Value = { List ℕ };

    ghost view = { λ counts. counts.counts.items };
}

impl Counts {
    /// The counts of no thread.
    pub fn open(alloc: Global) -> Result<Counts, NoMemory>
        ensures { IfOk result (λ counts. counts ≡ []) }
    {
        let counts = Vec::new(alloc);
        Ok(Counts { counts })
    }

    /// Adds the count of the next thread. After `NoMemory` the counts are as before.
    pub fn push(&mut self, _alloc: Global, count: u32) -> Result<(), NoMemory>
        ensures added { OnOk result (self.new ≡ self.old ++ count ∷ []) }
        ensures kept { OnErr result (self.new ≡ self.old) }
    {
        self.counts.push(count)?;
        Ok(())
    }

    /// The counts, that of thread 1 first.
    pub fn list(&self) -> &[u32]
        ensures { result.now ≡ self.now }
    {
        &self.counts
    }
}
