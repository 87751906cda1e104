//! A play: the script that a source gives, run over a device that is opened on a disk, in the order that a number
//! draws; or loaded alone, for callers that make its steps by themselves.
#![tactic(auto)]

mod commits;
mod faults;
mod plays;
mod streams;

pub use commits::has_committed;
pub use faults::PlayFault;
pub use plays::{load, open, play, take_script};
