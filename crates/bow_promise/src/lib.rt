//! What a phone is promised: a play cut anywhere, then restorations cut anywhere, and each block that was in use at
//! the checkpoint is as it was then; or, once a commit was answered, as it was written since. The one call is `restore`
//! with a contract that speaks of the play; the laws speak of journals and images alone.
#![tactic(auto)]

mod laws;
mod recovering;

pub use laws::{cut_law, promise_law, space_law};
pub use recovering::recover;
