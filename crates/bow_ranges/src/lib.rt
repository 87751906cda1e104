//! The kinds of all blocks of a device: a trait over the list of kinds, and its form as a list of runs.
#![tactic(auto)]

mod laws;
mod list;
mod pieces;
mod reads;
mod runs;
mod table;

pub use laws::{picked_law, reclaim_counts_law, set_counts_law};
pub use list::RangeList;
pub use table::Ranges;

#[cfg(test)]
mod tests;
