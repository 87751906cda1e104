//! Why a cut of the device never loses the checkpoint: which blocks may be written when, what a cut may leave, and what
//! that image stands for. There is no code here: each law is the clause of a function with an empty body, so that it is
//! proved with the crate.
#![tactic(auto)]

mod laws;

pub use laws::{
    ahead_law, batch_law, commit_law, disk_law, guard_law, in_place_law, phase_law, prepare_law,
    request_law, together_law,
};
