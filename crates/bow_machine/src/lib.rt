//! The device as a machine, without its representation: what it keeps in memory, the call that a turn makes on the
//! disk, and what memory becomes by the disk's reply. Whose turn it is, is an enum; all else is definitions. What is
//! proved of it stands on the functions of this crate, which do nothing: whatever the disk replies, each step leads
//! from a machine that stands for a flat state to one that stands for that state changed by the step's events, and
//! whatever a cut leaves stands for it too.
#![tactic(auto)]

mod laws;
mod turns;

pub use laws::{
    admit_law, ahead_law, calls_law, cut_law, discard_law, ends_law, live_law, opening_law,
    order_law, picks_law, ready_law, reply_law, rows_law, sound_law, space_law, status_law,
    step_law, ties_law, told_law,
};
pub use turns::Turn;
