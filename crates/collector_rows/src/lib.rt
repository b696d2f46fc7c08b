//! Who collects, step by step: a helper thread, which is a machine here, and the control, by its rows. Each step is one access of one word
//! of the table. The rows in `specs/HelperRows.antt` and `specs/ControlRows.antt` say for each spot what it does and what follows, those of
//! the control for any change of the image.
//!
//! A helper works on the units of a phase beside the mutators. It looks whether the control has ended, enters the heap, loads the phase
//! and the collection set, claims one unit and works on it, of marking, of evacuation or of updating, and leaves the heap, so that no
//! pause waits longer than a unit. Then it looks again.
//!
//! The control looks whether a collection is wanted, stops the mutators and helpers, loads all words of the image, or in a wide heap those
//! that its kind of pause goes by, stores those of the new image, and lets the others go on; while objects are marked or copied, or
//! references updated, it works on units as helpers do; once all mutators have ended it ends too.
#![tactic(auto)]

pub mod control_laws;
mod control_spot;
mod extent;
mod help_spot;
mod helper;
pub mod helper_laws;

pub use control_spot::{ControlSpot, LastPause};
pub use extent::{Extent, image_words};
pub use help_spot::HelpSpot;
pub use helper::Helper;
