//! The texts that the program writes: the transcript of a session, the line of a status, and the lines of a chain of
//! logs.
#![tactic(auto)]

mod chains;
mod lines;
mod transcripts;

pub use chains::{ChainFaultText, LogFaultText, chain_lines};
pub use lines::{item_line, status_line};
pub use transcripts::transcript;
