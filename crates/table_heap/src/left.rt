use std::snapshot::Snapshot;

/// What a heap begins from, if it is not the opening: the words of its table, and how many objects each thread has made.
#[derive(Drop)]
pub struct Left {
    pub(crate) words: Snapshot<Vec<u64>>,
    pub(crate) counts: Snapshot<Vec<u32>>,
}
