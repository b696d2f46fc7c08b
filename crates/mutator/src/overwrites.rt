ghost use Rattle.std.specs.Prelude.{◌≡◌};
ghost use Rattle.mutator.specs.Rows as rows;

use crate::fields::FieldSpot;
use crate::shows::after_field;
use crate::spot::Spot;
use heap_words::phase::MARKING;
use satb_barrier::RememberSpot;
use shen_graph::Reply;

/// Whether a reference that is overwritten in a phase has to be recorded: objects are marked, and it is not null.
pub(crate) fn is_to_record(phase: u64, found: u64) -> bool
    ensures { result ≡ rows.is_to_record phase found }
{
    phase == MARKING && found > 0
}

/// What a mutator does once the reference that it overwrites is recorded.
#[derive(Clone, Copy)]
pub enum Overwritten {
    /// It stores another one into the field where it was found.
    Set {
        /// The object.
        object: u64,
        /// The reference that is to be stored.
        value: u64,
    },
    /// It has swapped another one into the field; a root shall have the one that was there.
    Xchg,
    /// It has exchanged it for another one.
    Cas,
}

impl Overwritten {
    /// Where the call goes on, in its phase, with the reference that it overwrites: while objects are marked, one that is not
    /// null is recorded first.
    pub(crate) fn overwrite(self, phase: u64, found: u64) -> Spot
        ensures { result ≡ rows.overwritten phase found self }
    {
        if is_to_record(phase, found) {
            self.record(found)
        } else {
            self.after(found)
        }
    }

    /// Where it begins to record the reference that it overwrites.
    pub(crate) fn record(self, found: u64) -> Spot
        ensures { result ≡ Spot.Recording RememberSpot.LoadCount found self }
    {
        Spot::Recording {
            at: RememberSpot::LoadCount,
            address: found,
            next: self,
        }
    }

    /// Where it goes on that records the address and stands so.
    pub(crate) fn remember(self, address: u64, at: RememberSpot) -> Spot
        ensures { result ≡ rows.after_remember address self at }
    {
        match at {
            RememberSpot::Recorded => self.after(address),
            at => Spot::Recording {
                at,
                address,
                next: self,
            },
        }
    }

    // Where it goes on once the reference is recorded.
    fn after(self, found: u64) -> Spot
        ensures { result ≡ rows.after_recording found self }
    {
        match self {
            Overwritten::Set { object, value } => Spot::OnField {
                object,
                at: FieldSpot::Store { value },
            },
            Overwritten::Xchg => after_field(found),
            Overwritten::Cas => Spot::Leave { reply: Reply::Yes },
        }
    }
}
