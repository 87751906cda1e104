// The replay of one log, and of all.
ghost use Rattle.std.specs.Prelude.{◌≡◌, ◌+◌, ◌-◌, ◌^◌, ◌≤◌, ◌<◌, ◌∷◌, [], ℕ, List, true, false, if◌then◌else◌, Some, OnOk, IfOk, IfErr, length, take, drop, map, slice_index_or, slice_set};
ghost use Rattle.bow_units.specs.Causes.{HasCause, Rose};
ghost use Rattle.bow_log.specs.Generations.{Backup, Generation, backup_of, generation_of};
ghost use Rattle.bow_log.specs.Rules.{IsLog};
ghost use Rattle.bow_disk.specs.Disk.{Content};
ghost use Rattle.bow_chain.specs.Contents.{Contents, contents_of};
ghost use Rattle.bow_chain.specs.Kept.{kept, Keeps, Holds};
ghost use Rattle.bow_restore.specs.Dests.{AreNoted};
ghost use Rattle.bow_restore.specs.Marks.{marks_in, marks_of, entries_of};
ghost use Rattle.bow_restore.specs.Copies.{log_copies, chain_copies, writes_in, writes_of};
ghost use Rattle.bow_restore.specs.Limits.{IsLimit, GoesOn, StopsWithin, spent};
ghost use Rattle.bow_restore.specs.Rewinds.{every};
ghost use Rattle.bow_restore.specs.Replaying.{Replayed, PartReplayed, Holding, LogReplayed, ChainReplayed, AreMade, SameOthers, IsFlushed, HeadBack, IsHeadCut, stops_in, still_since, FromHolding, IsStoppedBy};
ghost use Rattle.bow_disk.specs.Moments.{AddsCuts, Tells};
ghost use Rattle.bow_chain.specs.Chains.{AreWhole, IsSoundWith, generations_of};
ghost use Rattle.bow_restore.specs.Loops.{MarkedWhereDue, since_in, source_at};
ghost use Rattle.bow_restore.specs.declared.halts.Halt.TheVariants.{Limit, Fault};

use crate::copies::copy_back;
use crate::dests::{forget, is_due, note};
use crate::halts::{Halt, spend_unless};
use crate::heads::{mark, put_head};
use crate::runs::run_of;
use bow_disk::Disk;
use bow_log::{Entry, Log};
use bow_units::{Failed, Geometry};

// The log in block 0 has `end` entries, and so many marks were made.
#[derive(Clone, Copy)]
pub(crate) struct Marks {
    pub(crate) end: usize,
    pub(crate) made: u64,
}

// Makes a mark where one is due before the entry of this index.
fn mark_before<D: Disk>(
    disk: &mut D,
    geometry: Geometry,
    log: &Log,
    index: usize,
    marks: &mut Marks,
    dests: &mut [bool],
    block: &mut [u8],
) -> Result<(), Failed>
    requires sizes { D.stated disk.old ≡ Some geometry }
    requires log { IsLog geometry log.now }
    requires on { index < marks.old.end }
    requires within { marks.old.end ≤ length log.now.entries }
    requires few { marks.old.made + index < 65536 }
    requires noted { AreNoted geometry (since_in geometry log.now (index + 1) marks.old.end) dests.old }
    requires one { length block.old ≡ geometry.block_size }
    ensures marks { MarkedWhereDue geometry log.now index marks.old marks.new }
    ensures noted { AreNoted geometry (still_since (source_at geometry log.now index) (since_in geometry log.now
        (index + 1) marks.old.end)) dests.new }
    ensures state { (c : Content) → D.content disk.old ≡ Some c → (saved : Contents) (older : List Generation)
        → length older ≡ log.now.sequence
        → Replayed geometry saved older (take (index + 1) (map (backup_of geometry) log.now.entries)) (since_in
        geometry log.now (index + 1) marks.old.end) c
        → OnOk result (Tells D.content (λ d. Replayed geometry saved older (take (index + 1) (map (backup_of geometry)
        log.now.entries)) (still_since (source_at geometry log.now index) (since_in geometry log.now (index + 1)
        marks.old.end)) d
        × SameOthers geometry (contents_of d.now) (contents_of c.now)) disk.new) }
    ensures cuts { (c : Content) → D.content disk.old ≡ Some c → (saved : Contents) (older : List Generation)
        → length older ≡ log.now.sequence
        → Replayed geometry saved older (take (index + 1) (map (backup_of geometry) log.now.entries)) (since_in
        geometry log.now (index + 1) marks.old.end) c
        → AddsCuts D.moment D.left_since (λ image. Keeps geometry every saved (contents_of image)) disk.old disk.new }
    ensures sizes { D.stated disk.new ≡ Some geometry }
    ensures cause { HasCause (D.faults disk.old) (D.faults disk.new) result }
{
    let entries: &[Entry] = &log.entries;
    if !is_due(dests, geometry, entries[index]) {
        return Ok(());
    }
    forget(dests, geometry, &entries[index + 1..marks.end]);
    marks.end = index + 1;
    marks.made += 1;
    mark(disk, geometry, log, index + 1, block)
}

// Replays the entries of a log but the first, from the last on, until the limit is reached. So many marks were made.
fn replay_entries<D: Disk>(
    disk: &mut D,
    geometry: Geometry,
    log: &Log,
    left: &mut Option<u32>,
    dests: &mut [bool],
    block: &mut [u8],
) -> Result<u64, Halt>
    requires sizes { D.stated disk.old ≡ Some geometry }
    requires log { IsLog geometry log.now }
    requires limit { IsLimit left.old }
    requires none { AreNoted geometry [] dests.old }
    requires one { length block.old ≡ geometry.block_size }
    ensures none { OnOk result (AreNoted geometry [] dests.new) }
    ensures marks { IfOk result (λ n. n ≡ marks_in (drop 1 (generation_of geometry log.now).entries)) }
    ensures few { IfOk result (λ n. n ≤ length log.now.entries) }
    // The limit.
    ensures going { OnOk result (GoesOn left.old (writes_in (drop 1 (generation_of geometry log.now).entries))) }
    ensures rest { OnOk result (left.new ≡ spent left.old (writes_in (drop 1 (generation_of geometry
        log.now).entries))) }
    ensures stops { IfErr result (λ halt. halt ≡ Limit
        → StopsWithin left.old (writes_in (drop 1 (generation_of geometry log.now).entries))) }
    // What was copied, all or up to the limit.
    ensures state { FromHolding geometry (generation_of geometry log.now) D.content disk.old (λ c older.
        OnOk result (Tells D.content (PartReplayed geometry (kept (contents_of c.now) (generation_of geometry
        log.now ∷ older)) older
        (take 1 (generation_of geometry log.now).entries) (drop 1 (generation_of geometry log.now).entries) c)
        disk.new)) }
    ensures part { FromHolding geometry (generation_of geometry log.now) D.content disk.old (λ c older.
        IsStoppedBy geometry (generation_of geometry log.now) left.old D.content disk.new c result) }
    ensures cuts { FromHolding geometry (generation_of geometry log.now) D.content disk.old (λ c older.
        AddsCuts D.moment D.left_since (λ image. Keeps geometry every (kept (contents_of c.now) (generation_of
        geometry log.now ∷ older)) (contents_of image)) disk.old disk.new) }
    ensures sizes { D.stated disk.new ≡ Some geometry }
    ensures faults { D.faults disk.old ≤ D.faults disk.new }
    ensures cause { IfErr result (λ halt. halt ≡ Fault → Rose (D.faults disk.old) (D.faults disk.new)) }
{
    let count = log.entries.len();
    let mut marks = Marks {
        end: count,
        made: 0,
    };
    for index in (1..count).rev() {
        mark_before(disk, geometry, log, index, &mut marks, dests, block)?;
        copy_back(disk, geometry, log.entries[index], left, block)?;
        note(dests, geometry, log.entries[index]);
    }
    forget(dests, geometry, &log.entries[1..marks.end]);
    Ok(marks.made)
}

// Puts what block 0 held when this log was made back into block 0. Where it was the first log of all, this is the last
// write, after which no limit stops.
fn restore_head<D: Disk>(
    disk: &mut D,
    geometry: Geometry,
    log: &Log,
    is_last: bool,
    left: &mut Option<u32>,
    block: &mut [u8],
) -> Result<(), Halt>
    requires sizes { D.stated disk.old ≡ Some geometry }
    requires log { IsLog geometry log.now }
    requires limit { IsLimit left.old }
    requires one { length block.old ≡ geometry.block_size }
    ensures going { OnOk result (GoesOn left.old (if is_last then 0 else 1)) }
    ensures rest { OnOk result (left.new ≡ spent left.old (if is_last then 0 else 1)) }
    ensures stops { IfErr result (λ halt. halt ≡ Limit → (is_last ≡ false) × (left.old ≡ Some 1)) }
    ensures back { (c : Content) → D.content disk.old ≡ Some c
        → OnOk result (Tells D.content (λ d. HeadBack (source_at geometry log.now 0) c d × IsFlushed d) disk.new) }
    ensures part { (c : Content) → D.content disk.old ≡ Some c → IfErr result (λ halt. halt ≡ Limit
        → Tells D.content (HeadBack (source_at geometry log.now 0) c) disk.new) }
    ensures cuts { (c : Content) → D.content disk.old ≡ Some c
        → AddsCuts D.moment D.left_since (IsHeadCut geometry (contents_of c.now (source_at geometry log.now 0).dest)
        c.now) disk.old disk.new }
    ensures sizes { D.stated disk.new ≡ Some geometry }
    ensures faults { D.faults disk.old ≤ D.faults disk.new }
    ensures cause { IfErr result (λ halt. halt ≡ Fault → Rose (D.faults disk.old) (D.faults disk.new)) }
{
    let run = run_of(log.entries[0], geometry);
    disk.read(run.dest, block)?;
    put_head(disk, geometry, block)?;
    spend_unless(left, is_last)?;
    disk.flush()?;
    Ok(())
}

// Replays one log, until the limit is reached. So many marks were made.
fn replay_log<D: Disk>(
    disk: &mut D,
    geometry: Geometry,
    log: &Log,
    is_last: bool,
    left: &mut Option<u32>,
    dests: &mut [bool],
    block: &mut [u8],
) -> Result<u64, Halt>
    requires sizes { D.stated disk.old ≡ Some geometry }
    requires log { IsLog geometry log.now }
    requires limit { IsLimit left.old }
    requires none { AreNoted geometry [] dests.old }
    requires one { length block.old ≡ geometry.block_size }
    ensures none { OnOk result (AreNoted geometry [] dests.new) }
    ensures marks { IfOk result (λ n. n ≡ marks_in (generation_of geometry log.now).entries) }
    ensures few { IfOk result (λ n. n ≤ length log.now.entries) }
    // The limit.
    ensures going { OnOk result (GoesOn left.old (stops_in is_last (generation_of geometry log.now).entries)) }
    ensures rest { OnOk result (left.new ≡ spent left.old (stops_in is_last (generation_of geometry log.now).entries)) }
    ensures stops { IfErr result (λ halt. halt ≡ Limit
        → StopsWithin left.old (stops_in is_last (generation_of geometry log.now).entries)) }
    // What was copied, all or up to the limit.
    ensures whole { FromHolding geometry (generation_of geometry log.now) D.content disk.old (λ c older.
        OnOk result (Tells D.content (LogReplayed geometry (generation_of geometry log.now) c) disk.new)) }
    ensures part { FromHolding geometry (generation_of geometry log.now) D.content disk.old (λ c older.
        IsStoppedBy geometry (generation_of geometry log.now) left.old D.content disk.new c result) }
    ensures cuts { FromHolding geometry (generation_of geometry log.now) D.content disk.old (λ c older.
        AddsCuts D.moment D.left_since (λ image. Holds geometry every (kept (contents_of c.now) (generation_of
        geometry log.now ∷ older)) (contents_of image)) disk.old disk.new) }
    ensures sizes { D.stated disk.new ≡ Some geometry }
    ensures faults { D.faults disk.old ≤ D.faults disk.new }
    ensures cause { IfErr result (λ halt. halt ≡ Fault → Rose (D.faults disk.old) (D.faults disk.new)) }
{
    let marks = replay_entries(disk, geometry, log, left, dests, block)?;
    restore_head(disk, geometry, log, is_last, left, block)?;
    Ok(marks)
}

/// How many entries were replayed, and how many marks made.
#[derive(Clone, Copy)]
pub(crate) struct Counts {
    pub(crate) entries: u64,
    pub(crate) marks: u64,
}

// Counts a log that was replayed with so many marks.
fn count(counts: &mut Counts, log: &Log, marks: u64)
    requires entries { counts.old.entries + length log.now.entries < 2 ^ 64 }
    requires marks { counts.old.marks + marks < 2 ^ 64 }
    ensures entries { counts.new.entries ≡ counts.old.entries + length log.now.entries }
    ensures marks { counts.new.marks ≡ counts.old.marks + marks }
{
    counts.entries += log.entries.len() as u64;
    counts.marks += marks;
}

/// Replays the logs of a chain, the newest first, until the limit is reached. No block is noted as a dest before it.
pub(crate) fn replay<D: Disk>(
    disk: &mut D,
    geometry: Geometry,
    logs: &[Log],
    left: &mut Option<u32>,
    dests: &mut [bool],
    block: &mut [u8],
) -> Result<Counts, Halt>
    requires sizes { D.stated disk.old ≡ Some geometry }
    requires logs { AreWhole geometry logs.now }
    requires limit { IsLimit left.old }
    requires none { AreNoted geometry [] dests.old }
    requires one { length block.old ≡ geometry.block_size }
    ensures entries { IfOk result (λ counts. counts.entries ≡ entries_of (generations_of geometry logs.now)) }
    ensures marks { IfOk result (λ counts. counts.marks ≡ marks_of (generations_of geometry logs.now)) }
    // The limit.
    ensures going { OnOk result (GoesOn left.old (writes_of (generations_of geometry logs.now) - 1)) }
    ensures stops { IfErr result (λ halt. halt ≡ Limit
        → StopsWithin left.old (writes_of (generations_of geometry logs.now) - 1)) }
    // What was copied, all or up to the limit.
    ensures whole { (c : Content) → D.content disk.old ≡ Some c → IsFlushed c
        → IsSoundWith geometry (contents_of c.now) (generations_of geometry logs.now)
        → OnOk result (Tells D.content (ChainReplayed geometry (generations_of geometry logs.now) c) disk.new) }
    ensures part { (c : Content) → D.content disk.old ≡ Some c → IsFlushed c
        → IsSoundWith geometry (contents_of c.now) (generations_of geometry logs.now) → (k : ℕ) → left.old ≡ Some k
        → IfErr result (λ halt. halt ≡ Limit
        → Tells D.content (AreMade geometry (chain_copies (generations_of geometry logs.now)) k c) disk.new) }
    ensures cuts { (c : Content) → D.content disk.old ≡ Some c → IsFlushed c
        → IsSoundWith geometry (contents_of c.now) (generations_of geometry logs.now)
        → AddsCuts D.moment D.left_since (λ image. Holds geometry every (kept (contents_of c.now) (generations_of
        geometry logs.now)) (contents_of image)) disk.old disk.new }
    ensures sizes { D.stated disk.new ≡ Some geometry }
    ensures faults { D.faults disk.old ≤ D.faults disk.new }
    ensures cause { IfErr result (λ halt. halt ≡ Fault → Rose (D.faults disk.old) (D.faults disk.new)) }
{
    let mut counts = Counts {
        entries: 0,
        marks: 0,
    };
    let last = logs.len() - 1;
    for index in 0..last {
        let marks = replay_log(disk, geometry, &logs[index], false, left, dests, block)?;
        count(&mut counts, &logs[index], marks);
    }
    let marks = replay_log(disk, geometry, &logs[last], true, left, dests, block)?;
    count(&mut counts, &logs[last], marks);
    Ok(counts)
}
