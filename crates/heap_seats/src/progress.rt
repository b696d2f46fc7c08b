use shen_graph::Reply;

/// What a seat answers that was asked for steps.
#[derive(Clone, Copy)]
pub enum Progress {
    /// The steps are made, and there is more to do.
    More,
    /// The last step waits for another machine, and will look again.
    Again,
    /// The last step ended the call, with this reply.
    Replied(Reply),
    /// Nothing is ordered: no step was made.
    Idle,
    /// It has ended, and makes no step any more.
    Ended,
}

/// Why a seat takes no order. Nothing has changed then.
#[derive(Clone, Copy)]
pub enum Refused {
    /// It has ended.
    Ended,
    /// Something is ordered, or a call is in progress. A helper and the control are always at work.
    Busy,
    /// A root, a size, a field or an index is out of its range.
    OutOfRange,
    /// It has made as many objects as there are names.
    Spent,
}

/// Whether a seat may be given an order.
#[derive(Clone, Copy)]
pub enum State {
    /// A mutator between two calls, to which nothing is ordered.
    Free,
    /// It has steps to make.
    AtWork,
    /// It has ended, and makes no step any more.
    Ended,
}
