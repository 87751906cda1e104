// A log in memory.
ghost use Rattle.std.specs.Prelude.{◌≡◌, ◌+◌, ◌^◌, ◌<◌, ◌≤◌, ◌↔◌, IsTrue, length};
ghost use Rattle.bow_log.specs.Spelling.{Fields};
ghost use Rattle.bow_units.specs.Sizes.{IsValid};
ghost use Rattle.bow_log.specs.Rules.{IsLog, entry_fault, first_log};
ghost use Rattle.bow_log.specs.Generations.{IsEntry, backup_of, generation_of, next_log, room, with_backup};

use crate::entries::Entry;
use crate::faults::LogFault;
use crate::sectors::{block_of, capacity, is_current};
use arrayvec::ArrayVec;
use bow_units::Geometry;
use std::marker::Model;

/// With what a log begins.
#[derive(Clone, Copy, Debug, PartialEq, Eq)]
pub enum Magic {
    /// `42 4f 57 00`.
    Log,
    /// `57 4f 42 00`: the log is under restoration, and its last entries may have been replayed.
    Restoring,
}

/// A log: `block_size` is in bytes, `sequence` is 0 for the first log and one higher for each next, and
/// `sector0` is the sector of 512 bytes at which the current block 0 lies.
#[derive(Drop)]
pub struct Log {
    pub magic: Magic,
    pub block_size: u32,
    pub sequence: u32,
    pub sector0: u64,
    pub entries: ArrayVec<Entry, 169>,
}

impl Model for Log {
    ghost Value = { Fields };

    ghost view = { λ log. record {
      magic = log.magic;
      block_size = log.block_size;
      sequence = log.sequence;
      sector0 = log.sector0;
      entries = log.entries.items;
    } };
}

/// The lowest of these entries that breaks a rule.
pub(crate) fn entry_fault(entries: &[Entry], geometry: Geometry) -> Option<LogFault>
    requires device { IsValid geometry }
    requires few { length entries.now ≤ 169 }
    ensures { result ≡ entry_fault geometry 0 entries.now }
{
    for index in 0..entries.len() {
        if !entries[index].keeps_rules(index as u32, geometry) {
            return Some(LogFault::Entry(index as u32));
        }
    }
    None
}

impl Log {
    /// The first log of a checkpoint: sequence 0, the current block 0 at the block `current`, and one
    /// entry.
    pub fn first(geometry: Geometry, current: u64, entry: Entry) -> Log
        requires { IsLog geometry (first_log geometry current entry) }
        ensures { result ≡ first_log geometry current entry }
    {
        let mut entries = ArrayVec::new();
        entries.push(entry);
        Log {
            magic: Magic::Log,
            block_size: geometry.block_size,
            sequence: 0,
            sector0: current * geometry.sectors(),
            entries,
        }
    }

    /// Whether this is a log for a valid device of these sizes: the block that spells it has no fault.
    pub fn valid(&self, geometry: Geometry) -> bool
        ensures { IsTrue result ↔ IsLog geometry self.now }
    {
        geometry.valid()
            && self.block_size == geometry.block_size
            && !self.entries.is_empty()
            && self.entries.len() <= capacity(geometry.block_size) as usize
            && is_current(self.sector0, geometry)
            && entry_fault(&self.entries, geometry).is_none()
    }

    /// The block at which the current block 0 lies.
    pub fn current(&self, geometry: Geometry) -> u64
        requires { IsLog geometry self.now }
        ensures is { result ≡ (generation_of geometry self.now).current }
        ensures not_0 { 0 < result }
        ensures on { result < geometry.blocks }
    {
        block_of(self.sector0, geometry)
    }

    /// From now on the current block 0 lies at this block.
    pub fn set_current(&mut self, geometry: Geometry, block: u64)
        requires log { IsLog geometry self.old }
        requires not_0 { 0 < block }
        requires on { block < geometry.blocks }
        ensures log { IsLog geometry self.new }
        ensures is { generation_of geometry self.new ≡ record (generation_of geometry self.old) { current = block } }
    {
        self.sector0 = block * geometry.sectors();
    }

    /// Whether it has as many entries as a block has room for.
    pub fn is_full(&self, geometry: Geometry) -> bool
        ensures { IsTrue result ↔ (length self.now.entries ≡ room geometry.block_size) }
    {
        self.entries.len() == capacity(geometry.block_size) as usize
    }

    /// Adds an entry at the end. It backed up other blocks than block 0.
    pub fn add(&mut self, geometry: Geometry, entry: Entry)
        requires log { IsLog geometry self.old }
        requires room { length self.old.entries < room geometry.block_size }
        requires entry { IsEntry geometry entry }
        requires other { 0 < (backup_of geometry entry).source }
        ensures log { IsLog geometry self.new }
        ensures is { generation_of geometry self.new
            ≡ with_backup (generation_of geometry self.old) (backup_of geometry entry) }
    {
        self.entries.push(entry);
    }

    /// Becomes the log after this one, which is full and lies in block 0: the one entry backed that block up.
    pub fn begin_next(&mut self, geometry: Geometry, entry: Entry)
        requires log { IsLog geometry self.old }
        requires entry { IsEntry geometry entry }
        requires of_0 { (backup_of geometry entry).source ≡ 0 }
        requires one { (backup_of geometry entry).count ≡ 1 }
        requires fits { self.old.sequence + 1 < 2 ^ 32 }
        ensures log { IsLog geometry self.new }
        ensures is { generation_of geometry self.new
            ≡ next_log (generation_of geometry self.old) (backup_of geometry entry) }
    {
        self.magic = Magic::Log;
        self.sequence += 1;
        self.entries.clear();
        self.entries.push(entry);
    }
}
