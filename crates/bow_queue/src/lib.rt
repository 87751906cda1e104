//! The requests that wait: a queue of 1 to 16 places which takes all its memory when it is opened. It says which
//! waiting write comes next for a block, which earlier write another one waits on, and which command comes first. Each
//! answer is a function of the list of the waiting requests in the order in which they were taken in.
#![tactic(auto)]

mod extents;
mod iter;
mod queue;
mod requests;
mod tickets;
mod wanted;

pub use extents::overlap_law;
pub use iter::Iter;
pub use queue::{Queue, first_law};
pub use requests::Request;
pub use tickets::Ticket;
