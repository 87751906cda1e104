//! Request tags: one word and one slot for each lane, by which lanes post what they ask and servers take and
//! answer it, in single atomic steps and without a lock.
//!
//! A lane's word is `4 * number + state`, where the state is 0 idle, 1 posted, 2 taken or 3 done, and each
//! change of a word adds one to it. Each thread has a seat of its own, with which it makes its steps.
#![tactic(auto)]

mod calls;
mod closing;
mod job;
mod laws;
mod opening;
mod plays;
mod seats;
mod table;
mod view;

pub use job::{Job, Lost, Reply};
pub use laws::rule_laws;
pub use seats::{LaneSeat, ServerSeat, Tags};
pub use view::{Entry, Fits, Held, LaneView, Stance, View};

#[cfg(test)]
mod tests;
