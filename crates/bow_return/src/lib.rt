//! What restoration means for the device: whatever a cut leaves of it before its decision, the checkpoint comes back.
//! The one call is `restore` with a contract that speaks of the device; the law says it of images and of boots.
#![tactic(auto)]

mod laws;
mod returning;

pub use laws::comes_back_law;
pub use returning::bring_back;
