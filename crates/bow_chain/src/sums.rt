// Whether the sums of a log hold.
ghost use Rattle.std.specs.Prelude.{◌≡◌, ◌+◌, ◌*◌, ◌<◌, ◌≤◌, ◌^◌, length, take, map, Some, IfOk, IfErr, OnOk, MatchResult};
ghost use Rattle.bow_units.specs.Sizes.{IsValid};
ghost use Rattle.bow_units.specs.Causes.{HasCause, Rose};
ghost use Rattle.bow_log.specs.Generations.{IsEntry, backup_of};
ghost use Rattle.bow_log.specs.Rules.{IsLog};
ghost use Rattle.bow_disk.specs.Disk.{Goes, Same};
ghost use Rattle.bow_chain.specs.Contents.{OfImage, run_of};
ghost use Rattle.bow_chain.specs.Places.{pass, base};
ghost use Rattle.bow_chain.specs.Tables.{place_in, IsTable, Follows};
ghost use Rattle.bow_chain.specs.Sound.{sum_at, SumsHold};
ghost use Rattle.bow_chain.specs.Runs.{IsRun};
ghost use Rattle.bow_chain.specs.Chains.{AreLogs, generations_of};
ghost use Rattle.bow_disk.specs.Moments.{AddsNoCut};
ghost use Rattle.bow_chain.specs.Answers.{TellsSum};
ghost use Rattle.bow_chain.specs.declared.faults.ChainFault.TheVariants.{DiskFault};

use crate::faults::ChainFault;
use crate::places::take_in;
use bow_crc::entry_sum;
use bow_disk::Disk;
use bow_log::{Entry, Log};
use bow_units::{Failed, Geometry};

// Reads so many blocks, the content that the table says was put to those from `first` on, into the first of these
// eight.
fn read_run<D: Disk>(
    disk: &mut D,
    geometry: Geometry,
    places: &[u32],
    first: u64,
    count: usize,
    blocks: &mut [u8],
) -> Result<(), Failed>
    requires valid { IsValid geometry }
    requires sizes { D.stated disk.old ≡ Some geometry }
    requires table { IsTable geometry places.now }
    requires few { count ≤ 8 }
    requires on { first + count ≤ geometry.blocks }
    requires eight { length blocks.old ≡ 8 * geometry.block_size }
    ensures run { OfImage (D.content disk.old) (λ image.
        let size = geometry.block_size in
        let at_places = run_of (λ x. image (place_in places.now x)) first count in
        OnOk result (IsRun size (take (size * count) blocks.new) at_places)) }
    ensures sizes { D.stated disk.new ≡ Some geometry }
    ensures step { Goes Same (D.content disk.old) (D.content disk.new) }
    ensures time { AddsNoCut D.content D.moment D.left_since disk.old disk.new }
    ensures cause { HasCause (D.faults disk.old) (D.faults disk.new) result }
{
    let size = geometry.block_size as usize;
    for index in 0..count {
        let place = places[first as usize + index];
        disk.read(place as u64, &mut blocks[size * index..size * index + size])?;
    }
    Ok(())
}

// The sum of what the dest of this entry held right after it was made. The table says where that content lies since.
fn found_sum<D: Disk>(
    disk: &mut D,
    geometry: Geometry,
    places: &[u32],
    entry: Entry,
    blocks: &mut [u8],
) -> Result<u32, Failed>
    requires valid { IsValid geometry }
    requires sizes { D.stated disk.old ≡ Some geometry }
    requires table { IsTable geometry places.now }
    requires entry { IsEntry geometry entry }
    requires eight { length blocks.old ≡ 8 * geometry.block_size }
    ensures sum { OfImage (D.content disk.old) (λ image.
        let backup = backup_of geometry entry in
        let at_places = run_of (λ x. image (place_in places.now x)) backup.dest backup.count in
        IfOk result (λ sum. sum ≡ sum_at backup.source at_places)) }
    ensures sizes { D.stated disk.new ≡ Some geometry }
    ensures step { Goes Same (D.content disk.old) (D.content disk.new) }
    ensures time { AddsNoCut D.content D.moment D.left_since disk.old disk.new }
    ensures cause { HasCause (D.faults disk.old) (D.faults disk.new) result }
{
    let source = entry.source_blocks(geometry);
    let dest = entry.dest_blocks(geometry);
    let size = geometry.block_size as usize;
    let mut sum = 0;
    let mut offset = 0;
    while offset < dest.count {
        let more = (dest.count - offset).min(8);
        read_run(
            disk,
            geometry,
            places,
            dest.first + offset,
            more as usize,
            blocks,
        )?;
        let read = &blocks[..size * more as usize];
        sum ^= entry_sum(source.first + offset, read, geometry.block_size);
        offset += more;
    }
    Ok(sum)
}

/// Tests the sums of a log that lies behind these, from the last entry to the first. The table has the places behind
/// these logs, and then those behind this one too.
pub(crate) fn test_sums<D: Disk>(
    disk: &mut D,
    geometry: Geometry,
    above: &[Log],
    log: &Log,
    places: &mut [u32],
    blocks: &mut [u8],
) -> Result<(), ChainFault>
    requires sizes { D.stated disk.old ≡ Some geometry }
    requires logs { AreLogs geometry above.now }
    requires log { IsLog geometry log.now }
    requires table { IsTable geometry places.old }
    requires follows { Follows geometry (base (generations_of geometry above.now)) places.old }
    requires deep { length above.now < 2 ^ 32 }
    requires eight { length blocks.old ≡ 8 * geometry.block_size }
    ensures sums { OfImage (D.content disk.old) (λ image.
        let route = base (generations_of geometry above.now) in
        let backups = map (backup_of geometry) log.now.entries in
        MatchResult result (λ _. SumsHold image route backups) (TellsSum image route backups (length above.now))) }
    ensures table { OnOk result (IsTable geometry places.new) }
    ensures follows { let gens = generations_of geometry above.now in
        let backups = map (backup_of geometry) log.now.entries in
        OnOk result (Follows geometry (λ x. base gens (pass backups x)) places.new) }
    ensures sizes { D.stated disk.new ≡ Some geometry }
    ensures step { Goes Same (D.content disk.old) (D.content disk.new) }
    ensures time { AddsNoCut D.content D.moment D.left_since disk.old disk.new }
    ensures faults { D.faults disk.old ≤ D.faults disk.new }
    ensures cause { IfErr result (λ fault. fault ≡ DiskFault → Rose (D.faults disk.old) (D.faults disk.new)) }
{
    let entries: &[Entry] = &log.entries;
    for index in (0..entries.len()).rev() {
        let entry = entries[index];
        let found = found_sum(disk, geometry, places, entry, blocks)?;
        if found != entry.sum {
            return Err(ChainFault::BadSum {
                depth: above.len() as u32,
                index: index as u32,
                found,
                stated: entry.sum,
            });
        }
        take_in(places, geometry, entry);
    }
    Ok(())
}
