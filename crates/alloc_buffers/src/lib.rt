//! Room for objects, as the machines of a heap take it: each has a buffer, words in which it alone takes room, and carves a new one
//! out of the region that all share, by one exchange of that region's top. Where the shared region has too little room left, a machine
//! takes a fresh one out of the free word and shares it, by another exchange (the allocation buffers of Shenandoah, JEP 189, as OpenJDK
//! has them in TLABs and GCLABs). Each step is one access of one word. The rows in `specs/Rows.antt` say for each spot what it does
//! and what follows.
#![tactic(auto)]

mod spot;
mod take;

ghost use Rattle.std.specs.Prelude.{ℕ, List};
ghost use Rattle.heap_words.specs.declared.config.Config.{Config};
ghost use Rattle.alloc_buffers.specs.declared.spot.Kind.{Kind as Purpose};
ghost use Rattle.alloc_buffers.specs.Room.{FindsNoRoom, IsLackOfRoom};

pub use spot::{Kind, TakeSpot, Taken};
pub use take::Take;

/// A law: whatever words a machine that takes room finds one after the other, it ends without room only where its buffer and the
/// shared region, by the words that it has found, have too little room or are none, and the free word that it finds last has no
/// region that may be taken.
pub fn no_room_has_its_cause()
    ensures { (config : Config) (words : ℕ) (kind : Purpose) (found : List ℕ) (free : ℕ) → FindsNoRoom config words kind found free → IsLackOfRoom config words kind found free }
{}
