/// What is asked of each handle before its heap is given up.
#[derive(Clone, Copy)]
pub enum Asked {
    /// Whether it holds a seat.
    Open,
    /// Whether its seat is one of a heap of so many, and has the number of its place.
    Numbered,
    /// Whether its seat has ended, or is a helper's.
    Over,
    /// Whether its seat has ended.
    Ended,
}
