/// The state word of a seat whose machine is in the heap, or looks whether it may be.
pub(crate) const IN: u64 = 1;

/// The state word of a seat whose machine is not in the heap.
pub(crate) const OUT: u64 = 0;

/// The pause word while a pause is wanted or runs.
pub(crate) const WANTED: u64 = 1;

/// The pause word while none is.
pub(crate) const UNWANTED: u64 = 0;
