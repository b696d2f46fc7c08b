ghost use Rattle.std.specs.Prelude.{◌≡◌, [], ◌∷◌, map, length};
ghost use Rattle.heap_words.specs.Steps.{IsReached};
ghost use Rattle.evac_room.specs.Core.{copier_kind, opening, IsFew};
ghost use Rattle.evac_room.specs.Copier.{spot_of};

use crate::copier::Copier;
use crate::wish::{Copying, Wish};
use heap_words::{Config, NoMemory};
use std::alloc::Global;

/// The word and its copiers, which are numbered from 0.
#[derive(Drop)]
pub struct Copiers {
    config: Config,
    word: u64,
    copiers: Vec<Copier>,
    ghost few: { IsFew (length copiers.items) },
    ghost reached: { ∥ IsReached copier_kind (opening (length copiers.items)) (record { words = word ∷ []; machines = map spot_of copiers.items }) ∥₁ },
}

impl Copiers {
    ghost use Rattle.std.specs.Prelude.{◌<◌, ◌≢◌, true, false, Some, IfOk};
    ghost use Rattle.heap_words.specs.Steps.{act};
    ghost use Rattle.heap_words.specs.Counter.{count_of, is_out_of_room, IsQuiet};
    ghost use Rattle.evac_room.specs.Core.{takes_at, answer_to, counted};
    ghost use Rattle.evac_room.specs.State.{counting_word, spots_of, spot_at, copiers_stage};

    /// So many copiers, 1 to 12, none of them inside. The word is 0.
    pub fn open(alloc: Global, count: usize) -> Result<Copiers, NoMemory>
        requires { IsFew count }
        ensures { IfOk result (λ copiers. copiers_stage copiers ≡ opening count) }
    {
        let Ok(config) = Config::new(4, 64, 1, 0, 0) else {
            unreachable!()
        };
        let mut copiers = Vec::new(alloc);
        for _ in 0..count {
            let Ok(()) = copiers.push(Copier::Outside) else {
                return Err(NoMemory);
            };
        }
        Ok(Copiers {
            config,
            word: 0,
            copiers,
        })
    }

    /// Whether there is the copier and it takes the wish: at rest outside it takes only `Enter`, at rest inside only `Leave`
    /// and `NoRoom`, and in between it takes any, and goes on.
    pub fn takes(&self, number: usize, wish: Wish) -> bool
        ensures taken { result ≡ true → (number < length (spots_of self.now)) × (takes_at (spot_at self.now number) wish ≡ true) }
        ensures refused { result ≡ false → number < length (spots_of self.now) → takes_at (spot_at self.now number) wish ≡ false }
    {
        number < self.copiers.len() && self.copiers[number].takes(wish)
    }

    /// Gives the copier one step: one access of the word. It takes the wish if it is at rest, and goes on if not.
    pub fn step(&mut self, number: usize, wish: Wish) -> Copying
        requires number { number < length (spots_of self.old) }
        requires wish { takes_at (spot_at self.old number) wish ≡ true }
        // it is one step of those of which the laws speak
        ensures step { copiers_stage self.new ≡ act copier_kind (copiers_stage self.old) (record { number = number; order = wish }) }
        ensures says { answer_to (copiers_stage self.old) (record { number = number; order = wish }) ≡ Some result }
        // what the laws say of this step
        ensures bit_stays { is_out_of_room (counting_word self.old) ≡ true → is_out_of_room (counting_word self.new) ≡ true }
        ensures stopped_is_quiet { result ≡ Copying.Stopped → IsQuiet (counting_word self.old) }
        ensures quiet_stays { IsQuiet (counting_word self.old) → IsQuiet (counting_word self.new) }
        ensures none_enters { IsQuiet (counting_word self.old) → result ≢ Copying.Inside }
    {
        self.copiers[number].advance(self.config, &mut self.word, wish)
    }

    /// The word: its lower 63 bits count the copiers that are inside or not yet taken off.
    pub fn word(&self) -> u64
        ensures word { result ≡ counting_word self.now }
        ensures counts { count_of result ≡ counted (spots_of self.now) }
    {
        self.word
    }
}
