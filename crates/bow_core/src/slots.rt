// Whole blocks of the device's buffers.
ghost use Rattle.std.specs.Prelude.{◌≡◌, ◌+◌, ◌*◌, ◌<◌, ◌≤◌, ◌^◌, length, take, drop, Some};
ghost use Rattle.bow_units.specs.declared.sizes.Geometry.{Geometry as Sizes};
ghost use Rattle.bow_disk.specs.Disk.{HasBlock};
ghost use Rattle.bow_machine.specs.Calls.{ReadCall, WriteCall};
ghost use Rattle.bow_log.specs.Rules.{IsLog};
ghost use Rattle.bow_log.specs.Generations.{IsBackup, IsEntry, backup_of, entry_of};
ghost use Rattle.bow_machine.specs.Steps.{copy_entry};
ghost use Rattle.bow_units.specs.Sizes.{IsValid};
ghost use Rattle.bow_log.specs.Spelling.{spell};
ghost use Rattle.bow_crc.specs.Sums.{first_blocks, sum_of};
ghost use Rattle.bow_core.specs.Calls.{read_reply, reply_of};
ghost use Rattle.bow_core.specs.Ports.{Makes};

use crate::ports::Port;
use bow_crc::entry_sum;
use bow_disk::Disk;
use bow_log::{Entry, Log, write_log};
use bow_units::{Failed, Geometry};

/// Reads block `at` into a buffer of one block.
pub(crate) fn read_block<D: Disk>(
    port: &mut Port<D>,
    buffer: &mut Vec<u8>,
    at: u64,
) -> Result<(), Failed>
    requires { HasBlock (D.stated port.old.disk) at (length buffer.old.items) }
    ensures len { length buffer.new.items ≡ length buffer.old.items }
    ensures made { (g : Sizes) → D.stated port.old.disk ≡ Some g → Makes D.stated D.content D.moment
        D.left_since D.faults g (Some (ReadCall at)) (read_reply result buffer.new.items) port.old.disk
        port.new.disk port.old.calls port.new.calls }
{
    port.read(at, buffer)
}

/// Reads block `at` into the slot of a buffer of blocks of this size.
pub(crate) fn read_slot<D: Disk>(
    port: &mut Port<D>,
    buffer: &mut Vec<u8>,
    size: usize,
    at: u64,
    slot: u32,
) -> Result<(), Failed>
    requires on { HasBlock (D.stated port.old.disk) at size }
    requires few { slot < 8 }
    requires small { size ≤ 4096 }
    requires room { (slot + 1) * size ≤ length buffer.old.items }
    ensures len { length buffer.new.items ≡ length buffer.old.items }
    ensures front { take (slot * size) buffer.new.items ≡ take (slot * size) buffer.old.items }
    ensures made { (g : Sizes) → D.stated port.old.disk ≡ Some g → Makes D.stated D.content D.moment
        D.left_since D.faults g (Some (ReadCall at)) (read_reply result (take size (drop (slot * size)
        buffer.new.items))) port.old.disk port.new.disk port.old.calls port.new.calls }
{
    let start = slot as usize * size;
    port.read(at, &mut buffer[start..start + size])
}

/// Writes the slot of a buffer of blocks of this size to block `at`.
pub(crate) fn write_slot<D: Disk>(
    port: &mut Port<D>,
    buffer: &Vec<u8>,
    size: usize,
    at: u64,
    slot: u32,
) -> Result<(), Failed>
    requires on { HasBlock (D.stated port.old.disk) at size }
    requires few { slot < 8 }
    requires small { size ≤ 4096 }
    requires room { (slot + 1) * size ≤ length buffer.now.items }
    ensures { (g : Sizes) → D.stated port.old.disk ≡ Some g → Makes D.stated D.content D.moment D.left_since
        D.faults g (Some (WriteCall at (take size (drop (slot * size) buffer.now.items)))) (reply_of result)
        port.old.disk port.new.disk port.old.calls port.new.calls }
{
    let start = slot as usize * size;
    port.write(at, &buffer[start..start + size])
}

/// Spells a log into the first slot of a buffer.
pub(crate) fn spell_slot(log: &Log, geometry: Geometry, buffer: &mut Vec<u8>)
    requires valid { IsLog geometry log.now }
    requires room { geometry.block_size ≤ length buffer.old.items }
    ensures len { length buffer.new.items ≡ length buffer.old.items }
    ensures spelled { take geometry.block_size buffer.new.items ≡ spell log.now }
{
    let size = geometry.block_size as usize;
    write_log(log, geometry, &mut buffer[0..size]);
}

/// The sum of the first so many slots, as copies of the blocks from `first` on.
pub(crate) fn sum_of_slots(buffer: &Vec<u8>, size: u32, first: u64, count: u32) -> u32
    requires some { 1 ≤ count }
    requires few { count ≤ 8 }
    requires sized { 0 < size }
    requires small { size ≤ 4096 }
    requires room { count * size ≤ length buffer.now.items }
    requires numbered { first + count < 2 ^ 64 }
    ensures { result ≡ sum_of first (first_blocks count size buffer.now.items) }
{
    entry_sum(first, &buffer[..count as usize * size as usize], size)
}

/// The entry of a backup whose content lies in the first slots.
pub(crate) fn entry_of_slots(
    geometry: Geometry,
    buffer: &Vec<u8>,
    source: u64,
    dest: u64,
    count: u32,
) -> Entry
    requires valid { IsValid geometry }
    requires few { count ≤ 8 }
    requires room { count * geometry.block_size ≤ length buffer.now.items }
    requires backup { IsBackup geometry (copy_entry source dest count (first_blocks count geometry.block_size
        buffer.now.items)) }
    ensures entry { IsEntry geometry result }
    ensures backup { backup_of geometry result ≡ copy_entry source dest count (first_blocks count geometry.block_size
        buffer.now.items) }
    ensures spelled { result ≡ entry_of geometry (copy_entry source dest count (first_blocks count geometry.block_size
        buffer.now.items)) }
{
    let sum = sum_of_slots(buffer, geometry.block_size, source, count);
    Entry::of_backup(geometry, source, dest, count, sum)
}
