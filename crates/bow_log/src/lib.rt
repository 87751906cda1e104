//! The log of a checkpoint: which blocks were backed up, and where. It fills one block, block 0 of the
//! device, and each older log lies where the one after it says. The idea is that of the device-mapper
//! target dm-bow (the kernel's `dm-bow.txt`); the format is this project's own.
//!
//! | Offset | Bytes | Field |
//! |---|---|---|
//! | 0 | 4 | magic: `42 4f 57 00`, or `57 4f 42 00` in a log under restoration |
//! | 4 | 2 | version, `0x0100` |
//! | 6 | 2 | header size, 28 |
//! | 8 | 4 | block size in bytes |
//! | 12 | 4 | number of entries |
//! | 16 | 4 | sequence, 0 for the first log and one higher for each next |
//! | 20 | 8 | the sector at which the current block 0 lies |
//! | 28 | 24 each | entries: source u64, dest u64, size u32, sum u32 |
//!
//! All fields are little-endian, and all bytes after the last entry are zero.
#![tactic(auto)]

mod entries;
mod faults;
mod fields;
mod headers;
mod laws;
mod logs;
mod reading;
mod sectors;
#[cfg(test)]
mod tests;
mod writing;

pub use entries::Entry;
pub use faults::LogFault;
pub use headers::{begins_restoring, read_current};
pub use laws::{generation_law, magic_law, spelling_law};
pub use logs::{Log, Magic};
pub use reading::read_log;
pub use sectors::capacity;
pub use writing::write_log;
