//! Files of a system that note each call, refuse the calls that they are told to, and move as few bytes at a time as
//! they are told: a test double for any `Files`.
#![tactic(auto)]

mod files;
mod notes;

pub use files::{Noted, NotedFile};
pub use notes::{Call, Notes};
