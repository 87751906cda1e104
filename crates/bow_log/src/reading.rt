// A log read from its block.
ghost use Rattle.std.specs.Prelude.{◌≡◌, ◌+◌, ◌*◌, ◌≤◌, ◌↔◌, IsOk, OnOk, OnErr, MatchResult, Some, None, length};
ghost use Rattle.bow_units.specs.Sizes.{IsValid};
ghost use Rattle.bow_log.specs.Faults.{count_in, parts_of, entries_at, fault_of, log_of};
ghost use Rattle.bow_units.specs.Magics.{HasMagic};
ghost use Rattle.bow_log.specs.declared.faults.LogFault.TheVariants.{NoMagic};
ghost use Rattle.bow_log.specs.Rules.{entry_fault, IsLog};
ghost use Rattle.bow_log.specs.Spelling.{Fields, Fits, spell};

use crate::entries::Entry;
use crate::faults::LogFault;
use crate::fields::{entry_at, u32_at, u64_at};
use crate::headers::{begins_restoring, begins_with_magic, sizes_fault};
use crate::logs::{Log, Magic};
use crate::sectors::is_current;
use arrayvec::ArrayVec;
use bow_units::{Geometry, all_zero};

fn entry_fault_in(block: &[u8], count: u32, geometry: Geometry) -> Option<LogFault>
    requires device { IsValid geometry }
    requires room { 28 + 24 * count ≤ length block.now }
    requires few { count ≤ 169 }
    ensures { result ≡ entry_fault geometry 0 (entries_at count 28 block.now) }
{
    for index in 0..count {
        if !entry_at(block, 28 + 24 * index as usize).keeps_rules(index, geometry) {
            return Some(LogFault::Entry(index));
        }
    }
    None
}

#[tactic(auto, unfolding(crate::specs::Faults::fault_of))]
fn fault(block: &[u8], geometry: Geometry) -> Option<LogFault>
    requires device { IsValid geometry }
    requires one { length block.now ≡ geometry.block_size }
    ensures { result ≡ fault_of geometry block.now }
{
    if !begins_with_magic(block) {
        return Some(LogFault::NoMagic);
    }
    if let Some(fault) = sizes_fault(block, geometry) {
        return Some(fault);
    }
    let count = u32_at(block, 12);
    if !all_zero(&block[28 + 24 * count as usize..]) {
        return Some(LogFault::Tail);
    }
    if !is_current(u64_at(block, 20), geometry) {
        return Some(LogFault::Sector0);
    }
    entry_fault_in(block, count, geometry)
}

fn read_entries(block: &[u8], count: u32, into: &mut ArrayVec<Entry, 169>)
    requires room { 28 + 24 * count ≤ length block.now }
    requires few { count ≤ 169 }
    ensures { into.new.items ≡ entries_at count 28 block.now }
{
    into.clear();
    for index in 0..count {
        into.push(entry_at(block, 28 + 24 * index as usize));
    }
}

fn read_parts(block: &[u8], into: &mut Log)
    requires room { 28 + 24 * count_in block.now ≤ length block.now }
    requires few { count_in block.now ≤ 169 }
    ensures { into.new ≡ parts_of block.now }
{
    into.magic = if begins_restoring(block) {
        Magic::Restoring
    } else {
        Magic::Log
    };
    into.block_size = u32_at(block, 8);
    into.sequence = u32_at(block, 16);
    into.sector0 = u64_at(block, 20);
    read_entries(block, u32_at(block, 12), &mut into.entries);
}

/// Reads the log that a block of the device spells into `into`, which is left as it was where the block
/// spells none. The answer is then its first fault.
pub fn read_log(block: &[u8], geometry: Geometry, into: &mut Log) -> Result<(), LogFault>
    requires device { IsValid geometry }
    requires one { length block.now ≡ geometry.block_size }
    // The first fault, or none.
    ensures exact { MatchResult result (λ _. fault_of geometry block.now ≡ None)
        (λ fault. fault_of geometry block.now ≡ Some fault) }
    // The log of the block, which is valid, and the block is its spelling.
    ensures read { OnOk result (log_of geometry block.now ≡ Some into.new) }
    ensures found { OnOk result (IsLog geometry into.new × (block.now ≡ spell into.new)) }
    // Each log that the block spells is read, so there is one at most.
    ensures only { (log : Fields) → Fits log → IsLog geometry log → block.now ≡ spell log
        → IsOk result × (into.new ≡ log) }
    // Neither magic is exactly what makes the first fault of all.
    ensures plain { MatchResult result (λ _. HasMagic block.now) (λ fault. (fault ≡ NoMagic) ↔ ¬ HasMagic block.now) }
    ensures kept { OnErr result (into.new ≡ into.old) }
{
    if let Some(fault) = fault(block, geometry) {
        return Err(fault);
    }
    read_parts(block, into);
    Ok(())
}
