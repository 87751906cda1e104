//! Callers with requests of their own, in one history: what is asked is not known before, and grows with each call.
#![tactic(auto)]

mod asks;
mod callers;
mod closing;
mod desk;
mod hands;
mod laws;
mod locked;
mod naming;
mod ops;
mod passes;
mod runs;
mod seating;
mod service;
mod setting;

pub use asks::{Answer, Ask, Call, CallFault};
pub use closing::Closed;
pub use desk::Desk;
pub use laws::{calls_law, history_law};
pub use naming::Naming;
pub use passes::Pass;
pub use runs::{Called, run_callers};
pub use seating::Callers;

#[cfg(test)]
mod tests;
