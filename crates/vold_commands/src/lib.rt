//! Vold's commands on the attempts to boot with a checkpoint, each a step of one small machine; and what boots, cut and
//! begun again, make of the attempts and of the checkpoint.
#![tactic(auto)]

mod boots;
mod commands;
mod laws;
mod questions;
mod starting;

pub use boots::{BootFault, Booted, boot};
pub use commands::{abort, committed, mark};
pub use laws::boots_law;
pub use questions::{needs_checkpoint, needs_rollback};
pub use starting::{StartFault, start};
