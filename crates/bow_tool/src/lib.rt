//! The top call of the program: from the words of the command line, the bytes of a script, an image and the attempts
//! that are kept, to what is told of them.
#![tactic(auto)]

mod attempts;
mod boots;
mod call_lines;
mod callers;
mod checks;
mod drill_cuts;
mod drill_disks;
mod drill_lines;
mod drill_plays;
mod drills;
mod lines;
mod outcomes;
mod pair_boots;
mod pair_lines;
mod pair_plays;
mod pair_scripts;
mod pairs;
mod pasts;
mod plays;
mod refusals;
mod restores;
mod sizes;
mod streams;
mod tools;
mod verdicts;

pub use bow_words::Command;
pub use drills::{Drilled, drill};
pub use pairs::{PairEnded, pair_tool};
pub use refusals::Refusal;
pub use tools::{Ended, manage, tool};
