//! The kinds of all blocks of a device as a tree: each node has sixteen parts of equal size, and tells of each
//! part its first and last run, its longest free run and how many blocks are free. A leaf has the kinds of sixteen
//! blocks.
#![tactic(auto)]

mod nodes;
mod parts;
mod reads;
mod steps;
mod tree;
mod writes;

pub use steps::Steps;
pub use tree::RangeTree;

#[cfg(test)]
mod tests;
