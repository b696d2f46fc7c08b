/// What a copier at rest is to do.
#[derive(Clone, Copy, Debug)]
pub enum Wish {
    /// To copy: outside only.
    Enter,
    /// It has copied: inside only.
    Leave,
    /// It found no room for a copy: inside only.
    NoRoom,
}

/// What a copier says of its step.
#[derive(Clone, Copy)]
pub enum Copying {
    /// It has more to do.
    More,
    /// It waits for other copiers, and will look again.
    Again,
    /// It may copy, and is counted until it leaves.
    Inside,
    /// It has left.
    Outside,
    /// It may not copy, and nobody does any more.
    Stopped,
}
