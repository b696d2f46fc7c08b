use crate::name::Name;

/// What a pin slot holds: an object, and the address at which it stays.
#[derive(Clone, Copy)]
pub struct Pinned {
    /// The object.
    pub name: Name,
    /// Its address.
    pub place: u64,
}
