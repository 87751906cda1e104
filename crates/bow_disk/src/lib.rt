//! A device of blocks, one in memory that tells its content and what every cut might leave, and one over a file.
#![tactic(auto)]

mod cuts;
mod device;
mod failing;
#[cfg(test)]
mod file_tests;
mod files;
mod history;
mod memory;

pub use cuts::Pick;
pub use device::{Disk, images_law, settled_law};
pub use failing::FailMode;
pub use files::FileDisk;
pub use memory::MemDisk;

#[cfg(test)]
mod tests;
