//! How mutators and helpers enter the heap and leave it, and how the control stops them for a pause: the safepoint
//! protocol of a collector, here with one pause word and one state word a seat.
//!
//! Who enters stores its state word first and looks at the pause word then; who stops stores the pause word first and
//! looks at all state words then. So of two that meet at least one sees the other, and the one that enters steps back.
//!
//! Without the second look, A loads the pause word, finds 0, and is held up; the control stores the pause word, finds the
//! state word of A still 0, and begins to move objects; A stores its state word, and is in the heap in the middle of it.
//!
//! Entering stands at an `EnterSpot`, stopping at a `StopSpot`, and each step is one access of one word; leaving and ending
//! a pause are one access each. The rows in `specs/Rows.antt` say for each spot which access it makes and what follows.
//! `Enter`, `Leave`, `Stop` and `Go` make these steps by themselves. `laws` has the theorem: over any kind of machine whose
//! steps obey, nobody is in the heap from the last check of a pause to its end.
#![tactic(auto)]

mod enter;
mod enter_spot;
mod go;
pub mod laws;
mod leave;
mod out;
mod stop;
mod stop_spot;
mod values;

pub use enter::Enter;
pub use enter_spot::EnterSpot;
pub use go::Go;
pub use leave::Leave;
pub use out::{go_access, leave_access};
pub use stop::Stop;
pub use stop_spot::StopSpot;
