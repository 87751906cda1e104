//! The lanes of a session as threads beside one another. Each lane's thread asks a gate and posts its requests; the
//! serving threads take what is posted and make the session's steps, one at a time under one lock.
#![tactic(auto)]

mod desk;
mod lanes;
mod naming;
mod runs;
mod servers;
mod workers;

pub use runs::run;
