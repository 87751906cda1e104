//! Several devices that commit or roll back together: the boot that settles them by one kept decision, and what boots,
//! cut and begun again, make of their images.
#![tactic(auto)]

mod accounts;
mod boots;
mod committing;
mod deciding;
mod joining;
mod laws;
mod pairs;
mod playing;
mod settling;

pub use boots::{PairBootFault, PairBooted, pair_boot};
pub use deciding::{Decided, decide};
pub use joining::PairFault;
pub use laws::{pair_boots_law, pair_law, pair_runs_law, pair_sessions_law};
pub use pairs::{Pair, Prepared, Ran};
