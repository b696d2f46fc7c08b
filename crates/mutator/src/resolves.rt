ghost use Rattle.std.specs.Prelude.{◌≡◌, true};
ghost use Rattle.mutator.specs.Rows as rows;
ghost use Rattle.mutator.specs.Fit.{is_reference_word};

use crate::fields::FieldSpot;
use crate::shows::after_field;
use crate::spot::Spot;
use heap_words::Config;
use load_barrier::{ResolveSpot, must_resolve};
use shen_graph::Reply;

/// What a mutator does with the reference that it has found in a field, once that is resolved.
#[derive(Clone, Copy)]
pub enum Loaded {
    /// A root shall have it.
    ForRoot,
    /// It exchanges it, if it is the one that is to be there.
    ToCompare {
        /// The object.
        object: u64,
        /// The reference that is to be there.
        expect: u64,
        /// The reference that is to be stored then.
        value: u64,
    },
}

impl Loaded {
    /// Where a call that has loaded this phase and this collection set goes on with what it found in the field: a reference into
    /// the set is resolved first.
    pub(crate) fn begin(self, config: Config, phase: u64, cset: u64, found: u64) -> Spot
        requires { is_reference_word config found ≡ true }
        ensures { result ≡ rows.with_loaded config phase cset found self }
    {
        if must_resolve(config, phase, cset, found) {
            Spot::Resolving {
                address: found,
                at: ResolveSpot::LoadHeader,
                next: self,
            }
        } else {
            self.after(found, found)
        }
    }

    /// Where it goes on that resolves what it found in the field and stands so.
    pub(crate) fn resolve(self, found: u64, at: ResolveSpot) -> Spot
        ensures { result ≡ rows.after_resolve found self at }
    {
        match at {
            ResolveSpot::Resolved { answer } => self.after(found, answer),
            at => Spot::Resolving {
                address: found,
                at,
                next: self,
            },
        }
    }

    // Where it goes on with what it found in the field, once that is resolved.
    fn after(self, found: u64, answer: u64) -> Spot
        ensures { result ≡ rows.after_resolved found answer self }
    {
        match self {
            Loaded::ForRoot => after_field(answer),
            Loaded::ToCompare {
                object,
                expect,
                value,
            } => after_expected(object, expect, value, found, answer),
        }
    }
}

// Where it goes on with what it found in a field, to exchange it if it resolves to the reference that is to be there. The
// exchange is of the word that was found, which may name an old copy.
fn after_expected(object: u64, expect: u64, value: u64, found: u64, answer: u64) -> Spot
    ensures { result ≡ rows.after_expected object expect value found answer }
{
    if answer == expect {
        Spot::OnField {
            object,
            at: FieldSpot::Exchange {
                found,
                expect,
                value,
            },
        }
    } else {
        Spot::Leave { reply: Reply::No }
    }
}
