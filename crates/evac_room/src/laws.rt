//! The counter by itself: one word and up to 12 copiers, each of whose steps is one access. The laws are of every list
//! of steps, so of every way in which threads may take turns.

ghost use Rattle.std.specs.Prelude.{ℕ, ◌≡◌, ◌≢◌, ◌≤◌, ◌<◌, ◌+◌, ◌-◌, ◌*◌, ◌^◌, ◌↔◌, bit_or, true, List, ◌∷◌, ◌++◌, Some, slice_get};
ghost use Rattle.heap_words.specs.Steps.{Event};
ghost use Rattle.evac_room.specs.declared.wish.Wish.{Wish};
ghost use Rattle.std.specs.Int.{bit_at};
ghost use Rattle.heap_words.specs.Counter.{count_of, is_out_of_room, marked, IsQuiet};
ghost use Rattle.evac_room.specs.declared.spot.RoomSpot.{RoomSpot};
ghost use Rattle.evac_room.specs.declared.spot.RoomSpot.TheVariants.{Inside};
ghost use Rattle.evac_room.specs.Rows.{IsFit};
ghost use Rattle.evac_room.specs.Core.{IsFew, AreOfOthers, counted, takes_at, wish_begun, word_after, spots_after, answer_after};

pub use crate::copiers::Copiers;
pub use crate::wish::{Copying, Wish};

/// A law: what is said of the counter is said of its bits.
pub fn bits_of_the_counter()
    ensures bit { (word : ℕ) → word < 2 ^ 64 → (is_out_of_room word ≡ true) ↔ (bit_at word 63 ≡ 1) }
    ensures parts { (word : ℕ) → word < 2 ^ 64 → word ≡ bit_at word 63 * 2 ^ 63 + count_of word }
    ensures marked { (word : ℕ) → word < 2 ^ 64 → marked word ≡ bit_or word (2 ^ 63) - 1 }
{}

/// The laws of the counter: of 1 to 12 copiers, whatever list of steps they make from the opening. A step that its copier
/// does not take changes nothing.
pub fn every_list_of_steps()
    // the lower 63 bits are the number of copiers that are inside, in a leave before its access, or out of room and not yet
    // taken off
    ensures counts { (copiers : ℕ) (steps : List (Event Wish)) → IsFew copiers
        → count_of (word_after copiers steps) ≡ counted (spots_after copiers steps) }
    // it is a word of 64 bits
    ensures is_word { (copiers : ℕ) (steps : List (Event Wish)) → IsFew copiers
        → word_after copiers steps < 2 ^ 64 }
    // a copier that takes a wish finds a fit word
    ensures fits { (copiers : ℕ) (steps : List (Event Wish)) (number : ℕ) (spot : RoomSpot) (wish : Wish) → IsFew copiers
        → slice_get (spots_after copiers steps) number ≡ Some spot → takes_at spot wish ≡ true
        → IsFit (wish_begun spot wish) (word_after copiers steps) }
    // bit 63 once set stays
    ensures bit_stays { (copiers : ℕ) (steps more : List (Event Wish)) → IsFew copiers
        → is_out_of_room (word_after copiers steps) ≡ true
        → is_out_of_room (word_after copiers (steps ++ more)) ≡ true }
    // a copier that was told that it may copy is inside, and counted, until its own next step: whatever the others do
    ensures inside_until_its_step { (copiers : ℕ) (steps more : List (Event Wish)) (step : Event Wish) → IsFew copiers
        → answer_after copiers steps step ≡ Some Copying.Inside → AreOfOthers step.number more
        → (slice_get (spots_after copiers (steps ++ step ∷ more)) step.number ≡ Some Inside)
        × (1 ≤ count_of (word_after copiers (steps ++ step ∷ more))) }
    // a copier is stopped only by a quiet word: bit 63 is set, and nobody is counted
    ensures stopped_is_quiet { (copiers : ℕ) (steps : List (Event Wish)) (step : Event Wish) → IsFew copiers
        → answer_after copiers steps step ≡ Some Copying.Stopped → IsQuiet (word_after copiers steps) }
    // a quiet word stays quiet
    ensures quiet_stays { (copiers : ℕ) (steps more : List (Event Wish)) → IsFew copiers
        → IsQuiet (word_after copiers steps) → IsQuiet (word_after copiers (steps ++ more)) }
    // after a quiet word nobody may copy, ever again
    ensures none_enters { (copiers : ℕ) (steps more : List (Event Wish)) (step : Event Wish) → IsFew copiers
        → IsQuiet (word_after copiers steps)
        → answer_after copiers (steps ++ more) step ≢ Some Copying.Inside }
{}
