//! What a user may believe of the device, without its machinery: for each block what it may read as, and what a cut may
//! leave of it; the events that change that; and the checkpoint that is kept meanwhile.
#![tactic(auto)]

mod laws;

pub use laws::validity_law;
