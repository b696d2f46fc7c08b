ghost use Rattle.std.specs.Prelude.{◌≡◌, [], ◌∷◌, ◌++◌, IfOk, OnOk, OnErr};

use super::place::Place;
use std::alloc::Global;
use std::marker::Model;

/// The allocator had no memory.
#[derive(Clone, Copy, Debug)]
pub struct NoMemory;

/// A piece of a schedule. `number` is that of a machine, counted from 0: the mutators, the helpers,
/// the control.
#[derive(Clone, Copy)]
pub enum Item {
    /// The machine makes `count` steps, or fewer if it becomes idle.
    Steps {
        /// The machine.
        number: usize,
        /// Its steps.
        count: u64,
    },
    /// The machine makes steps until its next access stands at `place`, or it is idle.
    Until {
        /// The machine.
        number: usize,
        /// Where it stops.
        place: Place,
    },
    /// The mutator makes steps until it has given `count` replies in all, or is idle; after each of
    /// its steps that waits the control makes one.
    Replies {
        /// The mutator.
        number: usize,
        /// Its replies.
        count: u64,
    },
}

/// In which order the machines step at first: a list of items.
#[derive(Drop)]
pub struct Schedule {
    items: Vec<Item>,
}

impl Model for Schedule {
    ghost use Rattle.std.specs.Prelude.{List};
    ghost use Rattle.heap_words.specs.declared.schedule.Item.{Item};

    ghost Value = { List Item };

    ghost view = { λ schedule. schedule.items.items };
}

impl Schedule {
    /// The empty schedule.
    pub fn open(alloc: Global) -> Result<Schedule, NoMemory>
        ensures { IfOk result (λ schedule. schedule ≡ []) }
    {
        Ok(Schedule {
            items: Vec::new(alloc),
        })
    }

    /// Puts an item at the end. The list has its allocator already. Without memory the schedule stays
    /// as it was.
    pub fn push(&mut self, _alloc: Global, item: Item) -> Result<(), NoMemory>
        ensures ok { OnOk result (self.new ≡ self.old ++ item ∷ []) }
        ensures err { OnErr result (self.new ≡ self.old) }
    {
        match self.items.push(item) {
            Ok(()) => Ok(()),
            Err(_) => Err(NoMemory),
        }
    }

    /// The items in order.
    pub fn list(&self) -> &[Item]
        ensures { result.now ≡ self.now }
    {
        self.items.as_slice()
    }
}
