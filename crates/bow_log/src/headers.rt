// The header of a log, without its entries.
ghost use Rattle.std.specs.Prelude.{◌≡◌, ◌<◌, ◌≤◌, ◌⊎◌, ◌||◌, ◌↔◌, IsTrue, IfOk, IfSome, IfNone, MatchResult, MatchOption, Option, Some, None, length};
ghost use Rattle.bow_units.specs.Sizes.{IsValid};
ghost use Rattle.bow_units.specs.Magics.{HasMagic};
ghost use Rattle.bow_log.specs.Faults.{begins_with, count_in, sizes_fault, fields_fault, header_fault, current_in, IsOfHeader};
ghost use Rattle.bow_log.specs.Generations.{room};
ghost use Rattle.bow_log.specs.declared.faults.LogFault.{LogFault};
ghost use Rattle.bow_log.specs.declared.faults.LogFault.TheVariants.{NoMagic};
ghost use Rattle.bow_log.specs.declared.logs.Magic.TheVariants.{Log as LogMagic, Restoring};

use crate::faults::LogFault;
use crate::fields::{u16_at, u32_at, u64_at};
use crate::sectors::{block_of, capacity, is_current};
use crate::writing::{HEADER_SIZE, VERSION};
use bow_units::{Geometry, RESTORING_MAGIC, has_magic};

/// Whether the first four bytes are one of the two magics.
pub(crate) fn begins_with_magic(block: &[u8]) -> bool
    requires { 4 ≤ length block.now }
    ensures spelled { result ≡ (begins_with LogMagic block.now || begins_with Restoring block.now) }
    ensures magic { IsTrue result ↔ HasMagic block.now }
{
    has_magic(block)
}

/// Whether the first four bytes are the magic of a log under restoration.
pub fn begins_restoring(block: &[u8]) -> bool
    requires { 4 ≤ length block.now }
    ensures { result ≡ begins_with Restoring block.now }
{
    u32_at(block, 0) == RESTORING_MAGIC
}

// The first fault of version, sizes and count.
pub(crate) fn sizes_fault(block: &[u8], geometry: Geometry) -> Option<LogFault>
    requires device { IsValid geometry }
    requires one { length block.now ≡ geometry.block_size }
    ensures first { (rest : Option LogFault) → MatchOption result (sizes_fault geometry block.now rest ≡ rest)
        (λ fault. sizes_fault geometry block.now rest ≡ Some fault) }
    ensures named { IfSome result IsOfHeader }
    ensures few { IfNone result (count_in block.now ≤ room geometry.block_size) }
{
    if u16_at(block, 4) != VERSION {
        return Some(LogFault::Version);
    }
    if u16_at(block, 6) != HEADER_SIZE {
        return Some(LogFault::HeaderSize);
    }
    if u32_at(block, 8) != geometry.block_size {
        return Some(LogFault::BlockSize);
    }
    let count = u32_at(block, 12);
    if count == 0 || count > capacity(geometry.block_size) {
        return Some(LogFault::Count);
    }
    None
}

fn fields_fault(block: &[u8], geometry: Geometry) -> Option<LogFault>
    requires device { IsValid geometry }
    requires one { length block.now ≡ geometry.block_size }
    ensures fault { result ≡ fields_fault geometry block.now }
    ensures named { IfSome result IsOfHeader }
    ensures on { IfNone result (current_in geometry block.now < geometry.blocks) }
{
    if let Some(fault) = sizes_fault(block, geometry) {
        return Some(fault);
    }
    if !is_current(u64_at(block, 20), geometry) {
        return Some(LogFault::Sector0);
    }
    None
}

/// The block at which the current block 0 lies, where the header of this block is that of a log; else its first fault,
/// of magic, version, header size, block size, count and `sector0`. The tail and the entries are not looked at.
pub fn read_current(block: &[u8], geometry: Geometry) -> Result<u64, LogFault>
    requires device { IsValid geometry }
    requires one { length block.now ≡ geometry.block_size }
    ensures exact { MatchResult result (λ _. header_fault geometry block.now ≡ None)
        (λ fault. header_fault geometry block.now ≡ Some fault) }
    ensures at { IfOk result (λ at. at ≡ current_in geometry block.now) }
    ensures on { IfOk result (λ at. at < geometry.blocks) }
    ensures magic { MatchResult result (λ _. HasMagic block.now)
        (λ fault. ((fault ≡ NoMagic) × (¬ HasMagic block.now)) ⊎ (IsOfHeader fault × HasMagic block.now)) }
{
    if !begins_with_magic(block) {
        return Err(LogFault::NoMagic);
    }
    if let Some(fault) = fields_fault(block, geometry) {
        return Err(fault);
    }
    Ok(block_of(u64_at(block, 20), geometry))
}
