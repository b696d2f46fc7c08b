//! Tests of words, graphs and texts, by hand-made rows, across the crates that hold them.
#![tactic(auto)]

#[cfg(test)]
mod blocks;
#[cfg(test)]
mod churned;
#[cfg(test)]
mod dumps;
#[cfg(test)]
mod found;
#[cfg(test)]
mod graph;
#[cfg(test)]
mod lines;
#[cfg(test)]
mod packed_heaps;
#[cfg(test)]
mod queue;
#[cfg(test)]
mod sizes_of_regions;
#[cfg(test)]
mod sources_sinks;
#[cfg(test)]
mod words_of_tables;
#[cfg(test)]
mod written;
