//! The status of a run, which one thread publishes and others look at. A look gives a whole value, the
//! latest that was published, and never an older one than the same watcher saw before.
#![tactic(auto)]

mod cell;
mod laws;
mod shown;
mod view;

pub use cell::{Publisher, StatusCell, Watcher};
pub use laws::rule_laws;

#[cfg(test)]
mod tests;
