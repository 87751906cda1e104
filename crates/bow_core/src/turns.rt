// What a step did.
use crate::Ticket;
use bow_units::{Op, Outcome};

/// What a step did.
#[derive(Drop)]
pub enum Step {
    /// Nothing: the turn was not ready.
    Idle,
    /// Something within the device.
    Moved,
    /// Block `index` of the request's blocks, counted from 0, was written.
    Wrote {
        ticket: Ticket,
        index: u32,
    },
    /// Block `index` of the request's blocks, counted from 0, was read into its place in the request's buffer.
    Got {
        ticket: Ticket,
        index: u32,
    },
    /// The request is answered, and handed back with its buffer.
    Answered {
        ticket: Ticket,
        op: Op,
        outcome: Outcome,
    },
}
