//! The words of the command line: which command they ask for.
#![tactic(auto)]

mod clap_words;
mod commands;
mod faults;
mod laws;
mod names;
mod own_words;
mod pair_words;

pub use commands::{Command, read_words};
pub use faults::WordsFault;
pub use laws::words_law;
pub use pair_words::{PairCommand, pair_words_law, read_pair_words};
