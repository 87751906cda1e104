//! What every other crate speaks of: the sizes of a device, requests and their answers, the two magic
//! numbers, decimal numbers, the pattern and the text of a block's content, draws from a number, and the
//! streams at the program's edge.
#![tactic(auto)]

mod contents;
mod draws;
mod failures;
mod gates;
mod magics;
mod memory_ends;
mod numbers;
mod patterns;
mod requests;
mod sizes;
mod statuses;
mod streams;
#[cfg(test)]
mod tests;

pub use contents::{all_zero, content_text_law, hex_digit, push_content, push_hex};
pub use draws::Draws;
pub use failures::{Failed, NoMemory};
pub use gates::{Gate, OpenGate};
pub use magics::{LOG_MAGIC, RESTORING_MAGIC, has_magic};
pub use memory_ends::{MemSink, MemSource};
pub use numbers::read_number;
pub use patterns::{fill_pattern, pattern_of};
pub use requests::{Op, Outcome, Payload, Phase};
pub use sizes::{Extent, Geometry};
pub use statuses::{Kind, Seen, Status};
pub use streams::{ReadSource, Sink, Source, WriteSink};
