//! What the words of the command line ask for: a replay, a run that goes on from a dump, a run in threads, a churn or a queue, which are run
//! on a heap, or a check of a history.
#![tactic(auto)]

mod checks;
mod churns;
mod dumps;
mod laws;
mod lines;
mod load;
mod mode;
mod parts;
mod queues;
mod replays;
mod runs;
mod status;
mod threads;

pub use checks::check;
pub use churns::churn;
pub use dumps::{replay_to_dump, resume};
pub use laws::noted_replays_are_right;
pub use lines::{refuse, say};
pub use mode::{Mode, Workload, mode_of};
pub use queues::queue;
pub use replays::{Refusal, noted_answer_to, replay, replay_noted, replayed_answer};
pub use runs::{run, run_answer};
pub use status::Status;
