ghost use Rattle.std.specs.Prelude.{◌≡◌, IsTrue, ◌↔◌};
ghost use Rattle.shen_graph.specs.Valid.{IsValid, is_valid};
ghost use Rattle.shen_graph.specs.Valid as valid;

use crate::name::Name;

/// What a thread may ask of the heap. Roots are numbered from 0 to 15, reference fields and numbers of an object from 0.
#[derive(Clone, Copy, PartialEq, Eq)]
pub enum Command {
    /// Makes an object of `refs` null references and `nums` zeros, which root `dst` names from then on.
    New {
        dst: u32,
        refs: u32,
        nums: u32,
    },
    /// Loads a reference field of the object of root `src` into root `dst`.
    Get {
        dst: u32,
        src: u32,
        field: u32,
    },
    /// Stores root `val` into a reference field of the object of root `obj`.
    Set {
        obj: u32,
        field: u32,
        val: u32,
    },
    /// Stores root `val` into the field where it equals root `expect`.
    Cas {
        obj: u32,
        field: u32,
        expect: u32,
        val: u32,
    },
    /// Stores root `val` into the field, and what was there into root `dst`.
    Xchg {
        dst: u32,
        obj: u32,
        field: u32,
        val: u32,
    },
    /// Reads a number of the object of root `obj`.
    Rd {
        obj: u32,
        index: u32,
    },
    /// Writes a number of the object of root `obj`.
    Wr {
        obj: u32,
        index: u32,
        value: u64,
    },
    /// Copies root `src` to root `dst`.
    Copy {
        dst: u32,
        src: u32,
    },
    /// Makes root `dst` null.
    Drop {
        dst: u32,
    },
    /// Asks whether two roots are equal; two nulls are.
    Same {
        a: u32,
        b: u32,
    },
    /// Asks for a collection cycle, and does not wait for it.
    Gc,
    /// Puts the object of root `obj` into an empty pin slot. It stays at its place until the slot is emptied.
    Pin {
        slot: u32,
        obj: u32,
    },
    /// Empties a pin slot.
    Unpin {
        slot: u32,
    },
}

/// What a command is answered.
#[derive(Clone, Copy, Debug, PartialEq, Eq)]
pub enum Reply {
    /// A reference to the object of that name.
    Ref(Name),
    /// A null reference.
    Null,
    /// Done.
    Ok,
    /// Equal, or exchanged.
    Yes,
    /// Not equal, or not exchanged.
    No,
    /// A number.
    Number(u64),
    /// The root is null, or its object has no such field or number, or the pin slot is taken where it is to be empty, or
    /// empty where it is to be taken. Nothing changed.
    Bad,
    /// No region has room. Nothing changed.
    Full,
    /// The address at which the pinned object stays.
    At(u64),
}

impl Command {
    /// The number of roots of a thread.
    pub const ROOTS: u32 = 16;

    /// The most references, and the most numbers, that an object may have.
    pub const FIELDS: u32 = 16;

    /// The largest field or number that a command may name.
    pub const LAST_INDEX: u32 = 31;

    /// The number of pin slots of a thread.
    pub const SLOTS: u32 = 4;

    /// Whether roots are below 16, sizes at most 16, fields and indexes at most 31, and pin slots below 4.
    pub fn is_valid(&self) -> bool
        ensures valid { IsTrue result ↔ IsValid self.now }
        ensures test { result ≡ is_valid self.now }
    {
        self.is_in_range()
    }

    fn is_in_range(&self) -> bool
        ensures { result ≡ is_valid self.now }
    {
        match *self {
            Command::New { dst, refs, nums } => is_root(dst) && is_size(refs) && is_size(nums),
            Command::Get { dst, src, field } => is_root(dst) && is_root(src) && is_index(field),
            Command::Set { obj, field, val } => is_root(obj) && is_index(field) && is_root(val),
            Command::Cas {
                obj,
                field,
                expect,
                val,
            } => is_root(obj) && is_index(field) && is_root(expect) && is_root(val),
            Command::Xchg {
                dst,
                obj,
                field,
                val,
            } => is_root(dst) && is_root(obj) && is_index(field) && is_root(val),
            Command::Rd { obj, index } | Command::Wr { obj, index, .. } => {
                is_root(obj) && is_index(index)
            }
            Command::Copy { dst, src } => is_root(dst) && is_root(src),
            Command::Drop { dst } => is_root(dst),
            Command::Same { a, b } => is_root(a) && is_root(b),
            Command::Gc => true,
            Command::Pin { slot, obj } => is_slot(slot) && is_root(obj),
            Command::Unpin { slot } => is_slot(slot),
        }
    }
}

fn is_root(root: u32) -> bool
    ensures { result ≡ valid.is_root root }
{
    root < Command::ROOTS
}

fn is_size(fields: u32) -> bool
    ensures { result ≡ valid.is_size fields }
{
    fields <= Command::FIELDS
}

fn is_index(index: u32) -> bool
    ensures { result ≡ valid.is_index index }
{
    index <= Command::LAST_INDEX
}

fn is_slot(slot: u32) -> bool
    ensures { result ≡ valid.is_slot slot }
{
    slot < Command::SLOTS
}
