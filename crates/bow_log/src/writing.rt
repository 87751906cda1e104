// A log written to its block.
ghost use Rattle.std.specs.Prelude.{◌≡◌, ◌+◌, ◌*◌, ◌-◌, ◌≤◌, ◌++◌, take, length, flat_map, replicate};
ghost use Rattle.bow_log.specs.Rules.{IsLog};
ghost use Rattle.bow_log.specs.Spelling.{entry_text, header, spell};

use crate::entries::Entry;
use crate::logs::{Log, Magic};
use bow_units::{Geometry, LOG_MAGIC, RESTORING_MAGIC};

pub(crate) const VERSION: u16 = 0x0100;

pub(crate) const HEADER_SIZE: u16 = 28;

fn put(into: &mut [u8], at: usize, bytes: &[u8])
    requires { at + length bytes.now ≤ length into.old }
    ensures { take (at + length bytes.now) into.new ≡ take at into.old ++ bytes.now }
{
    into[at..at + bytes.len()].copy_from_slice(bytes);
}

fn put_entry(into: &mut [u8], at: usize, entry: Entry)
    requires { at + 24 ≤ length into.old }
    ensures { take (at + 24) into.new ≡ take at into.old ++ entry_text entry }
{
    put(into, at, &entry.source.to_le_bytes());
    put(into, at + 8, &entry.dest.to_le_bytes());
    put(into, at + 16, &entry.size.to_le_bytes());
    put(into, at + 20, &entry.sum.to_le_bytes());
}

fn put_header(log: &Log, into: &mut [u8])
    requires room { 28 ≤ length into.old }
    ensures { take 28 into.new ≡ header log.now }
{
    let magic = match log.magic {
        Magic::Log => LOG_MAGIC,
        Magic::Restoring => RESTORING_MAGIC,
    };
    put(into, 0, &magic.to_le_bytes());
    put(into, 4, &VERSION.to_le_bytes());
    put(into, 6, &HEADER_SIZE.to_le_bytes());
    put(into, 8, &log.block_size.to_le_bytes());
    put(into, 12, &(log.entries.len() as u32).to_le_bytes());
    put(into, 16, &log.sequence.to_le_bytes());
    put(into, 20, &log.sector0.to_le_bytes());
}

fn put_entries(entries: &[Entry], into: &mut [u8])
    requires { 28 + 24 * length entries.now ≤ length into.old }
    ensures { take (28 + 24 * length entries.now) into.new ≡ take 28 into.old ++ flat_map entry_text entries.now }
{
    for index in 0..entries.len() {
        put_entry(into, 28 + 24 * index, entries[index]);
    }
}

fn clear_from(into: &mut [u8], at: usize)
    requires { at ≤ length into.old }
    ensures { into.new ≡ take at into.old ++ replicate (length into.old - at) 0 }
{
    into[at..].fill(0);
}

/// Writes the one block that spells this log.
#[tactic(auto, unfolding(crate::specs::Spelling::spell))]
pub fn write_log(log: &Log, geometry: Geometry, into: &mut [u8])
    requires valid { IsLog geometry log.now }
    requires one { length into.old ≡ geometry.block_size }
    ensures { into.new ≡ spell log.now }
{
    put_header(log, into);
    put_entries(&log.entries, into);
    clear_from(into, 28 + 24 * log.entries.len());
}
