//! What all histories of the queue have in common, said over definitions alone.
ghost use Rattle.managed_queue.specs.Live.{FewAreLive};
ghost use Rattle.managed_queue.specs.Queue.{EveryHistory};
ghost use Rattle.managed_queue.specs.Shares.{FixedAreShared};
ghost use Rattle.managed_queue.specs.Users.{UsersPlay, TakersTake, PuttersPut};
ghost use Rattle.managed_queue.specs.Workload.{QueueRunsTell};

/// A law: in each legal history whose threads use the queue, the operations, in the order of the entries in which they
/// take effect, are a run of a queue that begins empty, and their replies are the run's.
pub fn every_history()
    ensures { EveryHistory }
{}

/// A law: for any weight of operations, all that took effect weigh what those of each thread weigh together. So counts and
/// sums of numbers are those of the threads.
pub fn fixed_are_shared()
    ensures { FixedAreShared }
{}

/// A law: a user goes by the table where no allocation is refused. So the histories of users are among those of
/// `every_history`.
pub fn users_play()
    ensures { UsersPlay }
{}

/// A law: a taker counts what its takes got, and got as many as it was told to once it has no next command.
pub fn takers_take()
    ensures { TakersTake }
{}

/// A law: a putter puts its numbers in a row, and has put all once it has no next command.
pub fn putters_put()
    ensures { PuttersPut }
{}

/// A law: at most 19 words are live, and 5 for each allocation that was not refused.
pub fn few_are_live()
    ensures { FewAreLive }
{}

/// A law: where two users put so many numbers each, at most 390, and two take as many, in a heap of 16 regions of 256 words, no
/// allocation is refused; what was taken is what was put, in that order; and the two takers got each number as often as it was put.
pub fn queue_runs_tell()
    ensures { QueueRunsTell }
{}
