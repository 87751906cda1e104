//! Restoration of the checkpoint that an image keeps, which may be cut anywhere and run again, and giving it up.
#![tactic(auto)]

mod answers;
mod copies;
mod dests;
mod forwarding;
mod generations;
mod halts;
mod heads;
mod laws;
mod marks;
mod restoring;
mod runs;

pub use answers::{Forwarded, Restored};
pub use forwarding::forward;
pub use laws::{replay_law, reruns_law};
pub use restoring::{check, restore};
