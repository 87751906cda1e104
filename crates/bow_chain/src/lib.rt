//! The chain of logs of an image: each log names the backups that were made under it, and the block in which the log
//! before it lies.
#![tactic(auto)]

mod chains;
mod faults;
mod laws;
mod loading;
mod places;
mod sums;
#[cfg(test)]
mod tests;

pub use chains::Chain;
pub use faults::ChainFault;
pub use laws::{base_law, chain_law, fault_law, own_blocks_law};
pub use loading::load;
