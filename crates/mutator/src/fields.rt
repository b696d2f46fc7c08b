ghost use Rattle.std.specs.Prelude.{◌≡◌, true};
ghost use Rattle.heap_words.specs.Touch.{placed};
ghost use Rattle.heap_words.specs.Fits.{touch_fits};
ghost use Rattle.mutator.specs.Rows as rows;
ghost use Rattle.mutator.specs.Fit.{field_goes, is_reference_word};

use crate::commands::index_of;
use crate::overwrites::{Overwritten, is_to_record};
use crate::resolves::Loaded;
use crate::spot::Spot;
use heap_words::{Access, Config, Place, Took};
use shen_graph::{Command, Reply};

/// What a call does to the reference field that its command is about.
#[derive(Clone, Copy)]
pub enum FieldSpot {
    /// It loads the field, for a root.
    Load,
    /// It loads the field, to compare it.
    LoadExpected {
        /// The reference that is to be there.
        expect: u64,
        /// The reference that is to be stored then.
        value: u64,
    },
    /// It loads the field, to record what it is about to overwrite there.
    LoadOld {
        /// The reference that is to be stored then.
        value: u64,
    },
    /// It stores a reference into the field.
    Store {
        /// The reference.
        value: u64,
    },
    /// It swaps a reference into the field; a root shall have what was there.
    Swap {
        /// The reference.
        value: u64,
    },
    /// It exchanges the field's reference for another.
    Exchange {
        /// The reference that it found there.
        found: u64,
        /// The reference that is to be there.
        expect: u64,
        /// The reference that is to be stored.
        value: u64,
    },
}

impl FieldSpot {
    /// The place of the next access.
    pub(crate) fn place(self) -> Place
        ensures { result ≡ rows.field_place self }
    {
        match self {
            FieldSpot::Load | FieldSpot::LoadExpected { .. } | FieldSpot::LoadOld { .. } =>
                Place::FL,
            FieldSpot::Store { .. } => Place::FS,
            FieldSpot::Swap { .. } => Place::FX,
            FieldSpot::Exchange { .. } => Place::CX,
        }
    }

    /// The next access, of the field of an object.
    pub(crate) fn access(self, config: Config, object: u64, command: Command) -> Access
        requires { touch_fits config (rows.field_touch object command self) ≡ true }
        ensures { result ≡ placed config (rows.field_touch object command self) }
    {
        let at = config.heap_at(object + 3 + index_of(command) as u64);
        match self {
            FieldSpot::Load | FieldSpot::LoadExpected { .. } | FieldSpot::LoadOld { .. } => {
                Access::load(at)
            }
            // keeps AreObjects, AreTraced, RelyCopies, IsUpdating.renewed and KeepsFields
            FieldSpot::Store { value } => Access::store(at, value),
            // keeps AreObjects, AreTraced, RelyCopies, KeepsFields and HasItsOwn.roots
            FieldSpot::Swap { value } => Access::swap(at, value),
            // keeps AreObjects, AreTraced, RelyCopies, KeepsFields and HasFound.still
            FieldSpot::Exchange { found, value, .. } => Access::exchange(at, found, value),
        }
    }

    /// Where the call goes on that has loaded this phase and this collection set, with the reference that was in the field of the
    /// object.
    pub(crate) fn after(self, config: Config, phase: u64, cset: u64, object: u64, got: u64) -> Spot
        requires { field_goes config self got ≡ true }
        ensures { result ≡ rows.field_next config phase cset object self got }
    {
        match self {
            FieldSpot::Load => Loaded::ForRoot.begin(config, phase, cset, got),
            FieldSpot::LoadExpected { expect, value } => {
                Loaded::ToCompare {
                    object,
                    expect,
                    value,
                }
                .begin(config, phase, cset, got)
            }
            FieldSpot::LoadOld { value } => Overwritten::Set { object, value }.overwrite(
                phase, got,
            ),
            FieldSpot::Store { .. } => Spot::Leave { reply: Reply::Ok },
            FieldSpot::Swap { .. } => after_swap(config, phase, cset, got),
            FieldSpot::Exchange { found, .. } if got == found => {
                Overwritten::Cas.overwrite(phase, found)
            }
            FieldSpot::Exchange { expect, value, .. } => Spot::OnField {
                object,
                at: FieldSpot::LoadExpected { expect, value },
            },
        }
    }

    /// What the step says that has found this reference.
    pub(crate) fn says(self, got: u64) -> Took
        ensures { result ≡ rows.field_says self got }
    {
        match self {
            FieldSpot::Exchange { found, .. } if got != found => Took::Again,
            _ => Took::More,
        }
    }
}

// Where it goes on with the reference that it has swapped out of a field, for a root: while objects are marked, one that is not
// null is recorded, and objects do not move then; in other phases it is resolved.
fn after_swap(config: Config, phase: u64, cset: u64, found: u64) -> Spot
    requires { is_reference_word config found ≡ true }
    ensures { result ≡ rows.after_swap config phase cset found }
{
    if is_to_record(phase, found) {
        Overwritten::Xchg.record(found)
    } else {
        Loaded::ForRoot.begin(config, phase, cset, found)
    }
}
