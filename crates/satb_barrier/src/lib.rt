//! The store barrier of marking from a snapshot at the beginning (SATB, as in G1 and Shenandoah): a mutator that overwrites a
//! reference while objects are marked records the old one, so that whatever could be reached when marking began is marked.
//!
//! Each mutator has a buffer of 8 entries and a count. To record an address it stores it behind its entries and raises the
//! count; a buffer that is full is emptied first, and each of its entries is made grey. A mutator that records stands at a
//! `RememberSpot`, and each of its steps is one access; the rows in `specs/Rows.antt` say for each spot which access it makes and
//! what follows.
#![tactic(auto)]

mod remember;
mod spot;

ghost use Rattle.satb_barrier.specs.Alone.{RecordingIsKept};

pub use remember::Remember;
pub use spot::RememberSpot;

/// A law: whatever others do that leave the mutator's count and buffer, and what is grey, as they are, once an address is
/// recorded it is grey or in the buffer, and what was recorded before still is.
pub fn recording_is_kept()
    ensures { RecordingIsKept }
{}
