//! The protocol that stops all copying when a copier finds no room: one word counts the copiers, and its bit 63 is set
//! once there was no room. It follows the evacuation-out-of-memory handler of OpenJDK's Shenandoah, in this heap's
//! profile.
//!
//! Without the count a copier that found no room could use an old object while another is still copying it, so that one
//! of them would lose a write. Here whoever finds no room sets the bit, so that nobody enters any more, and waits until
//! the count is 0; only then it goes on with the old object.
//!
//! A copier stands at a `RoomSpot`, and each of its steps is one access of the word; the rows in `specs/Rows.antt` say for
//! each spot which access it makes and what follows. Three machines make the steps of one call each: `EnterEvac`,
//! `LeaveEvac` and `OutOfRoom`. `laws` has the protocol by itself, and its theorem over every list of steps.
#![tactic(auto)]

mod copier;
mod copiers;
mod counter;
mod enter;
pub mod laws;
mod leave;
mod out_of_room;
mod room;
mod spot;
mod wish;

pub use enter::EnterEvac;
pub use leave::LeaveEvac;
pub use out_of_room::OutOfRoom;
pub use room::Room;
pub use spot::RoomSpot;
