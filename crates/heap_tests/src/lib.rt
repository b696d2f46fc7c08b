//! Tests of images, collections, machines' atomic steps and whole runs, by hand-made rows, across the crates that hold them; of schedules that an
//! adversary would choose, in which a machine is stopped at each place of a race in turn; and of sources, sinks and gates under the whole program.
#![tactic(auto)]

#[cfg(test)]
mod brief_pauses;
#[cfg(test)]
mod calls_step_by_step;
#[cfg(test)]
mod collections;
#[cfg(test)]
mod copiers_of_a_heap;
#[cfg(test)]
mod faults_of_calls;
#[cfg(test)]
mod gates_between_threads;
#[cfg(test)]
mod handshakes;
#[cfg(test)]
mod hints;
#[cfg(test)]
mod parts_of_calls;
#[cfg(test)]
mod pins;
#[cfg(test)]
mod renewal;
#[cfg(test)]
mod scene;
#[cfg(test)]
mod shared;
#[cfg(test)]
mod shared_heap;
#[cfg(test)]
mod tables;
#[cfg(test)]
mod units;
#[cfg(test)]
mod wide_heap;
