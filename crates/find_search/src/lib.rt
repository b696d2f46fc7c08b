//! Looking for the schedule of a test that breaks one of its claims, in runs of the test. A run is made step by step, with the commands that
//! its threads give by the replies of that very run. A schedule that breaks a claim is made short, written as a plain trace, and judged as it
//! is written.
#![tactic(auto)]

mod course;
mod exhaustive;
mod handing;
mod hunting;
mod items;
mod judging;
mod mixing;
mod random;
mod record;
mod shrinking;
mod spelling;
mod tally;
mod tree;
mod turns;

pub use course::{Course, Ending, SEATS};
pub use exhaustive::{Plan, search_all};
pub use hunting::{Break, Hunted, hunt};
pub use items::{Shape, place_behind, run_items};
pub use judging::{Judged, judge};
pub use mixing::mixed;
pub use random::{Draw, draw_schedules};
pub use shrinking::{Short, shrink};
pub use spelling::spelled;
pub use tally::{Found, Tally};
