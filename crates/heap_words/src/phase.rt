//! What runs beside the threads, by the number that the word of the phase has. Only a pause changes it.

/// Nothing: between two cycles.
pub const IDLE: u64 = 0;

/// Marking from a snapshot.
pub const MARKING: u64 = 1;

/// Evacuation of the collection set.
pub const EVACUATION: u64 = 2;

/// The updating of references.
pub const UPDATING: u64 = 3;
