//! A table of words that threads share, changed by the steps of machines, and its seats, gathered again in one. What holds of it is proved
//! here for every kind of machine.
//!
//! Of the seats that are gathered nobody knows whether they are of one table. A seat has no bytes, so that no code can look; but what it is
//! to the proofs goes over to the one that gathers where both are of one table, and only there.
#![tactic(auto)]

mod bundles;
mod exchange;
mod gather;
mod hands;
mod laws;
mod machines;
mod steps;

pub use bundles::{close_table, deal_bundle, join_bundle, open_table};
pub use exchange::exchange_in_one_table;
pub use gather::{Keyed, gather_seat, read_run};
pub use hands::{deal_machines, join_machines};
pub use laws::{
    bundles_are_all, bundles_are_reached, memory_follows_views, numbers_stay, steps_are_counted,
    steps_keep_the_rule, steps_reach_memory,
};
pub use machines::{
    Cut, Machines, Parts, SharedWords, StepsRule, StepsTable, Turn, Turns, Union, View, ViewSeat,
};
pub use steps::make_step;
