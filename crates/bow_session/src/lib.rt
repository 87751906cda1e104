//! A session: the requests of a script, in lanes beside one another, played step by step against a device, and the
//! journal of what was done.
#![tactic(auto)]

mod desks;
mod lines;
mod loading;
mod parts;
mod payloads;
mod records;
mod reserved;
mod run_laws;
mod seats;
mod sessions;

pub use bow_history::{Actor, Item};
pub use desks::actor_at;
pub use lines::{line_of, lines_of};
pub use parts::Part;
pub use payloads::{begun_with, extent, patterned};
pub use run_laws::run_law;
pub use seats::first_block;
pub use sessions::Session;
