//! A mutator thread as a machine: each of its steps is one access of one word of the table. `plan` says which access
//! comes next, and `took` takes the word that it found. A mutator stands at a spot, and the rows in `specs/Rows.antt`
//! say for each spot what it does and what follows. The spots of a part of a call stand together, in a type and a file of
//! their own.
#![tactic(auto)]

mod commands;
mod fields;
mod loads;
mod makes;
mod numbers;
mod overwrites;
mod pins;
mod resolves;
mod settles;
mod shows;
mod spot;
mod thread;
mod waits;

pub use fields::FieldSpot;
pub use loads::LoadSpot;
pub use makes::MakeSpot;
pub use numbers::NumberSpot;
pub use overwrites::Overwritten;
pub use pins::PinSpot;
pub use resolves::Loaded;
pub use shows::ShowSpot;
pub use spot::{Entered, Kept, Spot};
pub use thread::Mutator;
pub use waits::WaitSpot;
