ghost use Rattle.std.specs.Prelude.{◌≡◌, IfOk};
ghost use Rattle.crossbeam_deque.specs.Handles.{IsPassOf, worker_view, stealer_deque, view};
ghost use Rattle.table_heap.specs.Rule.{heap_bounds};

use crate::rule::{Bounds, OfHeap, Same, TellsGreatest, TellsLeast, Within};
use crossbeam_deque::{Pass, Steal, Stealer, Worker};
use heap_words::{Config, NoMemory};
use std::alloc::Global;

// How many hints a deque has room for at first.
const FIRST_ROOM: usize = 64;

type Owner = Worker<u64, Global, Bounds, OfHeap>;

type Taker = Stealer<u64, Global, Bounds, OfHeap>;

/// The deque of one thread: addresses of a heap that its machines have made grey.
#[derive(Drop)]
pub struct Hints {
    config: Config,
    worker: Owner,
    ghost known: { worker_view worker ≡ heap_bounds config },
}

/// Who steals from the deque of another thread.
#[derive(Drop)]
pub struct Thief {
    config: Config,
    stealer: Taker,
    pass: Pass<u64, Bounds>,
    ghost of: { IsPassOf (stealer_deque stealer) pass },
    ghost known: { view pass ≡ heap_bounds config },
}

// A deque that knows the bounds of the heap's addresses, and holds these two.
fn told(alloc: Global, config: Config) -> Result<Owner, NoMemory>
    ensures { IfOk result (λ worker. worker_view worker ≡ heap_bounds config) }
{
    let Ok(mut worker) = Owner::lifo_as(alloc, FIRST_ROOM) else {
        return Err(NoMemory);
    };
    let least = config.region_words() as u64;
    let greatest = (config.region_words() + config.heap_size() - 1) as u64;
    let Ok(()) = worker.push_as::<TellsLeast>(least) else {
        return Err(NoMemory);
    };
    let Ok(()) = worker.push_as::<TellsGreatest>(greatest) else {
        return Err(NoMemory);
    };
    Ok(worker)
}

impl Hints {
    ghost use Rattle.std.specs.Prelude.{IfOk, IfSome};
    ghost use Rattle.heap_words.specs.Words.{Heap, IsWord};
    ghost use Rattle.table_heap.specs.Seen.{config_of, config_in, IsThiefOf, IsSameDeque};

    /// An empty deque for addresses of the heap of this configuration. The error is that memory was refused.
    pub fn open(alloc: Global, config: Config) -> Result<Hints, NoMemory>
        ensures config { IfOk result (λ hints. config_of hints ≡ config) }
    {
        let mut worker = told(alloc, config)?;
        worker.pop_as::<Within>();
        worker.pop_as::<Within>();
        Ok(Hints { config, worker })
    }

    /// One who steals from it. The error is that memory was refused.
    pub fn thief(&mut self) -> Result<Thief, NoMemory>
        ensures config { config_of self.new ≡ config_of self.old }
        ensures deque { IsSameDeque self.old self.new }
        ensures thief { IfOk result (λ thief. (config_in thief ≡ config_of self.old) × IsThiefOf self.new thief) }
    {
        let Ok(stealer) = self.worker.stealer() else {
            return Err(NoMemory);
        };
        let pass = self.worker.another::<Same>();
        Ok(Thief {
            config: self.config,
            stealer,
            pass,
        })
    }

    /// Adds the hint of an address of the heap. It is dropped where there is no memory for it.
    pub fn push(&mut self, address: u64)
        requires { IsWord (config_of self.old) (Heap address) }
        ensures config { config_of self.new ≡ config_of self.old }
        ensures deque { IsSameDeque self.old self.new }
    {
        let _refused = self.worker.push_as::<Within>(address);
    }

    /// Takes the latest hint, if there is one: an address of the heap.
    pub fn pop(&mut self) -> Option<u64>
        ensures config { config_of self.new ≡ config_of self.old }
        ensures deque { IsSameDeque self.old self.new }
        ensures heap { IfSome result (λ address. IsWord (config_of self.old) (Heap address)) }
    {
        self.worker.pop_as::<Within>()
    }
}

impl Thief {
    ghost use Rattle.std.specs.Prelude.{IfSome};
    ghost use Rattle.heap_words.specs.Words.{Heap, IsWord};
    ghost use Rattle.table_heap.specs.Seen.{config_in, IsThiefOf};
    ghost use Rattle.table_heap.specs.declared.hints.Hints.{Hints as Hint};

    /// Steals the oldest hint: an address of the heap. There is none where the deque is empty, and where another thread was faster.
    pub fn steal(&mut self) -> Option<u64>
        ensures config { config_in self.new ≡ config_in self.old }
        ensures deque { (hints : Hint) → IsThiefOf hints self.old → IsThiefOf hints self.new }
        ensures heap { IfSome result (λ address. IsWord (config_in self.old) (Heap address)) }
    {
        match self.stealer.steal_as::<Within>(&mut self.pass) {
            Steal::Success(address) => Some(address),
            Steal::Empty | Steal::Retry => None,
        }
    }
}
