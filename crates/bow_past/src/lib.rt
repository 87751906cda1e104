//! The checkpoint, read beside running writers: each block of it lies where the log in memory and the older logs have
//! put it. The older logs are read off the disk one by one, and none of them changes while the checkpoint stands.
#![tactic(auto)]

mod ended;
mod laws;
mod lines;
mod older;
mod places;
mod readers;
mod running;
mod steps;

pub use ended::{Ended, PastStep};
pub use laws::{agreement_law, past_law};
pub use lines::reading_lines;
pub use readers::Past;
pub use running::run_beside;
