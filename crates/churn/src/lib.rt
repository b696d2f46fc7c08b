//! A large workload made from two numbers: the scripts of its three threads, what is told of a run, and the laws that all
//! runs tell the same.
#![tactic(auto)]

ghost use Rattle.churn.specs.Laws.{NoneIsFull, NoneIsBad, RunsAreInTurn, ThereIsOneInTurn, OneInTurn, OneSummary, RunsCanBeSummedUp};

mod script;
mod summary;

pub use script::churn_scripts;
pub use summary::{Summary, summarize};

/// A law: no allocation of a run of the workload is refused.
pub fn none_is_full()
    ensures { NoneIsFull }
{}

/// A law: no command of a run is answered `Bad`.
pub fn none_is_bad()
    ensures { NoneIsBad }
{}

/// A law: each run tells the same as one in which the threads run one after the other.
pub fn runs_are_in_turn()
    ensures { RunsAreInTurn }
{}

/// A law: there is a run in which the threads run one after the other.
pub fn there_is_one_in_turn()
    ensures { ThereIsOneInTurn }
{}

/// A law: there is only one run in which the threads run one after the other.
pub fn one_in_turn()
    ensures { OneInTurn }
{}

/// A law: the summary of that run depends on the seed and the count alone.
pub fn one_summary()
    ensures { OneSummary }
{}

/// A law: what a run tells meets what `summarize` asks, for seeds and counts that are not very large.
pub fn runs_can_be_summed_up()
    ensures { RunsCanBeSummedUp }
{}
