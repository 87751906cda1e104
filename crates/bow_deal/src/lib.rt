//! A script dealt out to several devices: its lanes go round, and each device plays its first section, prepares, and
//! then plays the others.
#![tactic(auto)]

mod copying;
mod dealing;

pub use dealing::{later_part, opening_part};
