//! The copy worker's plan: which acts, each one call on the disk, make up a batch, and where a batch stands.
//! The manual `Documentation/device-mapper/dm-bow.txt` says that data is backed up to the free area before it
//! is written; the order of the acts, with its flushes, is this project's own.
#![tactic(auto)]

mod batches;
mod jobs;

pub use batches::{Batch, acts_of_fitting_blocks_law, done, next};
pub use jobs::{Act, After, Job};
