// Which blocks were read as dests since the log in block 0 was written: one note for each block of the device.
ghost use Rattle.std.specs.Prelude.{◌≡◌, ◌≤◌, ◌<◌, ◌+◌, ◌⊎◌, ◌∷◌, [], ℕ, List, length, map};
ghost use Rattle.std.specs.List.{AllByRecursion as Each};
ghost use Rattle.bow_units.specs.Sizes.{IsValid};
ghost use Rattle.bow_log.specs.Generations.{Backup, IsBackup, backup_of};
ghost use Rattle.bow_chain.specs.Chains.{IsEntry};
ghost use Rattle.bow_restore.specs.Marks.{overlaps};
ghost use Rattle.bow_restore.specs.Dests.{is_noted, AreNoted};

use crate::runs::run_of;
use bow_log::Entry;
use bow_units::Geometry;

// Sets the notes of so many blocks, from this one on.
fn set_notes(dests: &mut [bool], first: u64, count: u64, noted: bool)
    requires within { first + count ≤ length dests.old }
    ensures long { length dests.new ≡ length dests.old }
    ensures inside { (x : ℕ) → first ≤ x → x < first + count → is_noted dests.new x ≡ noted }
    ensures outside { (x : ℕ) → (x < first) ⊎ (first + count ≤ x) → is_noted dests.new x ≡ is_noted dests.old x }
{
    for offset in 0..count {
        dests[(first + offset) as usize] = noted;
    }
}

/// Whether a mark is due before this entry: whether a block of its source is noted.
pub(crate) fn is_due(dests: &[bool], geometry: Geometry, entry: Entry) -> bool
    requires valid { IsValid geometry }
    requires entry { IsEntry geometry entry }
    requires long { length dests.now ≡ geometry.blocks }
    ensures { (since : List Backup) → Each (IsBackup geometry) since → AreNoted geometry since dests.now
        → result ≡ overlaps (backup_of geometry entry) since }
{
    let run = run_of(entry, geometry);
    for offset in 0..run.count {
        if dests[(run.source + offset) as usize] {
            return true;
        }
    }
    false
}

/// Notes the dest of one entry more.
pub(crate) fn note(dests: &mut [bool], geometry: Geometry, entry: Entry)
    requires valid { IsValid geometry }
    requires entry { IsEntry geometry entry }
    requires long { length dests.old ≡ geometry.blocks }
    ensures noted { (since : List Backup) → AreNoted geometry since dests.old
        → AreNoted geometry (backup_of geometry entry ∷ since) dests.new }
{
    let run = run_of(entry, geometry);
    set_notes(dests, run.dest, run.count, true);
}

/// Takes back the notes of these entries, which are all that there are.
pub(crate) fn forget(dests: &mut [bool], geometry: Geometry, entries: &[Entry])
    requires valid { IsValid geometry }
    requires entries { Each (IsEntry geometry) entries.now }
    requires noted { AreNoted geometry (map (backup_of geometry) entries.now) dests.old }
    ensures { AreNoted geometry [] dests.new }
{
    for index in 0..entries.len() {
        let run = run_of(entries[index], geometry);
        set_notes(dests, run.dest, run.count, false);
    }
}
