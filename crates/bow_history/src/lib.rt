//! The history of a session: concurrent lanes over the device as a machine. The run itself is kept, its turns with
//! what the disk replied; journal, moments and calls are computed from it. What is proved of it stands on the
//! functions of this crate, which do nothing: the journal is legal in every phase, whatever a cut leaves stands for a
//! state on its way, and so it is for every session whose steps keep the contract that is written here for the
//! device's code.
#![tactic(auto)]

mod items;
mod laws;

pub use items::{Actor, Item};
pub use laws::{
    complete_law, cuts_law, disk_cuts_law, ends_law, legal_law, prepared_law, quiet_law, rows_law,
    schedule_law, session_law, sound_law,
};
