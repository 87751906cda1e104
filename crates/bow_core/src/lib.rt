//! The device: it takes requests in, and carries them out step by step with at most one call on its disk in each.
//! Contracts see what it keeps as the machine's memory, and a step as one step of the machine.
#![tactic(auto)]

mod batches;
mod commands;
mod device;
mod hands;
mod mapping;
mod ports;
mod requests;
mod slots;
mod state;
mod tasks;
mod turns;
mod workers;

pub use bow_machine::Turn;
pub use bow_queue::Ticket;
pub use device::{Core, OpenFault};
pub use turns::Step;
