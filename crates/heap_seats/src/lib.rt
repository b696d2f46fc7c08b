//! The seats of a heap that threads share: each is one machine, with its share of the heap, and makes its steps where its owner
//! asks. Nothing here waits, starts a thread or takes a lock.
#![tactic(auto)]

mod closing;
mod gathering;
mod opening;
mod progress;
mod renewing;
mod room;
mod seat;
mod share;

pub use closing::Closing;
pub use gathering::Gathering;
pub use opening::{open_seats, open_seats_from};
pub use progress::{Progress, Refused, State};
pub use renewing::{Following, Renewal};
pub use room::RenewalRoom;
pub use seat::Seat;
pub use share::Share;
