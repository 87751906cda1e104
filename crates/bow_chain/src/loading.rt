// Loads the chain of logs of an image.
ghost use Rattle.std.specs.Prelude.{◌≡◌, ◌⊎◌, ◌+◌, ◌<◌, ◌≤◌, ◌^◌, ◌↔◌, ◌++◌, ◌∷◌, ◌&&◌, ◌*◌, nat_lt, [], ℕ, List, length, Some, IfOk, IfErr, OnOk, MatchResult};
ghost use Rattle.bow_units.specs.Sizes.{IsValid};
ghost use Rattle.bow_units.specs.Causes.{Rose};
ghost use Rattle.bow_units.specs.Magics.{HasMagic};
ghost use Rattle.bow_log.specs.Generations.{Generation, generation_of};
ghost use Rattle.bow_log.specs.Rules.{IsLog};
ghost use Rattle.bow_log.specs.Faults.{begins_with};
ghost use Rattle.bow_log.specs.declared.logs.Magic.TheVariants.{Restoring};
ghost use Rattle.bow_disk.specs.Disk.{Content, Goes, Same};
ghost use Rattle.bow_chain.specs.Contents.{OfImage, contents_of};
ghost use Rattle.bow_chain.specs.Sound.{IsSound};
ghost use Rattle.bow_chain.specs.Places.{base};
ghost use Rattle.bow_chain.specs.Tables.{IsTable, Follows};
ghost use Rattle.bow_chain.specs.Chains.{AreLogs, AreNumbered, AreWhole, IsSoundWith, generations_of};
ghost use Rattle.bow_disk.specs.Moments.{AddsNoCut};
ghost use Rattle.bow_chain.specs.Faults.{AreAbove, IsBehind, IsFaultBehind, IsFirstFault, fields_fault};
ghost use Rattle.bow_chain.specs.Answers.{IsOutside, TellsBehind, TellsFirst, TellsMagic};
ghost use Rattle.bow_units.specs.declared.sizes.Geometry.{Geometry};
ghost use Rattle.bow_log.specs.declared.faults.LogFault.TheVariants.{NoMagic};
ghost use Rattle.bow_chain.specs.declared.faults.ChainFault.{ChainFault};
ghost use Rattle.bow_chain.specs.declared.faults.ChainFault.TheVariants.{DiskFault};

use crate::chains::Chain;
use crate::faults::ChainFault;
use crate::places::own_places;
use crate::sums::test_sums;
use arrayvec::ArrayVec;
use bow_disk::Disk;
use bow_log::{Log, LogFault, Magic, begins_restoring, read_log};
use bow_units::Geometry;
use std::alloc::Global;

// Whether the block may be no log at this depth, whatever its fields say: it is under restoration, and not block 0.
fn is_refused(block: &[u8], depth: u32) -> bool
    requires { 4 ≤ length block.now }
    ensures { result ≡ (nat_lt 0 depth && begins_with Restoring block.now) }
{
    depth > 0 && begins_restoring(block)
}

// What is told of a log at this depth that has this fault in its fields.
fn fault_at(depth: u32, fault: LogFault) -> ChainFault
    ensures fault { (g : Geometry) (image : ℕ → List ℕ) (above : List Generation) (left : ℕ)
        → depth ≡ length above → fields_fault g depth (image (base above 0)) ≡ Some fault
        → IsFaultBehind g image above left result }
    ensures own { ¬ IsOutside result }
    ensures magic { (block : List ℕ) → depth ≡ 0 → ((fault ≡ NoMagic) ↔ ¬ HasMagic block) → TellsMagic block result }
{
    if depth == 0 && matches!(fault, LogFault::NoMagic) {
        ChainFault::NoLog
    } else {
        ChainFault::BadLog { depth, fault }
    }
}

// The log that a block spells as one at this depth, or its first fault.
fn log_at(block: &[u8], geometry: Geometry, depth: u32) -> Result<Log, ChainFault>
    requires valid { IsValid geometry }
    requires one { length block.now ≡ geometry.block_size }
    ensures log { IfOk result (λ log. IsLog geometry log) }
    ensures fields { (image : ℕ → List ℕ) (above : List Generation) (left : ℕ)
        → depth ≡ length above → image (base above 0) ≡ block.now
        → MatchResult result (λ log. IsBehind geometry image above depth (generation_of geometry log))
        (IsFaultBehind geometry image above left) }
    ensures own { IfErr result (λ fault. ¬ IsOutside fault) }
    ensures magic { depth ≡ 0 → MatchResult result (λ _. HasMagic block.now) (TellsMagic block.now) }
{
    if is_refused(block, depth) {
        return Err(fault_at(depth, LogFault::NoMagic));
    }
    let mut log = Log {
        magic: Magic::Log,
        block_size: 0,
        sequence: 0,
        sector0: 0,
        entries: ArrayVec::new(),
    };
    match read_log(block, geometry, &mut log) {
        Ok(()) => Ok(log),
        Err(fault) => Err(fault_at(depth, fault)),
    }
}

// Reads the log that lies behind these, at the place that the table has for block 0.
fn log_behind<D: Disk>(
    disk: &mut D,
    geometry: Geometry,
    above: &[Log],
    places: &[u32],
    blocks: &mut [u8],
) -> Result<Log, ChainFault>
    requires sizes { D.stated disk.old ≡ Some geometry }
    requires logs { AreLogs geometry above.now }
    requires table { IsTable geometry places.now }
    requires follows { Follows geometry (base (generations_of geometry above.now)) places.now }
    requires deep { length above.now < 2 ^ 32 }
    requires eight { length blocks.old ≡ 8 * geometry.block_size }
    ensures log { IfOk result (λ log. IsLog geometry log) }
    ensures fields { (c : Content) (left : ℕ) → D.content disk.old ≡ Some c →
        let image = contents_of c.now in
        let gens = generations_of geometry above.now in
        MatchResult result (λ log. IsBehind geometry image gens (length above.now) (generation_of geometry log))
        (TellsBehind geometry image gens left) }
    ensures magic { OfImage (D.content disk.old) (λ image. length above.now ≡ 0
        → MatchResult result (λ _. HasMagic (image 0)) (TellsMagic (image 0))) }
    ensures sizes { D.stated disk.new ≡ Some geometry }
    ensures step { Goes Same (D.content disk.old) (D.content disk.new) }
    ensures time { AddsNoCut D.content D.moment D.left_since disk.old disk.new }
    ensures faults { D.faults disk.old ≤ D.faults disk.new }
    ensures cause { IfErr result (λ fault. fault ≡ DiskFault → Rose (D.faults disk.old) (D.faults disk.new)) }
{
    let (block, _) = blocks.split_at_mut(geometry.block_size as usize);
    disk.read(places[0] as u64, block)?;
    log_at(block, geometry, above.len() as u32)
}

// The log in block 0, once it has passed its tests.
fn first_log<D: Disk>(
    disk: &mut D,
    geometry: Geometry,
    places: &mut [u32],
    blocks: &mut [u8],
) -> Result<Log, ChainFault>
    requires valid { IsValid geometry }
    requires sizes { D.stated disk.old ≡ Some geometry }
    requires table { IsTable geometry places.old }
    requires follows { Follows geometry (λ x. x) places.old }
    requires eight { length blocks.old ≡ 8 * geometry.block_size }
    ensures log { IfOk result (λ log. IsLog geometry log) }
    ensures table { OnOk result (IsTable geometry places.new) }
    ensures follows { IfOk result (λ log. Follows geometry (base (generation_of geometry log ∷ [])) places.new) }
    ensures tests { OfImage (D.content disk.old)
        (λ image. MatchResult result (λ log. AreAbove geometry image (generation_of geometry log ∷ []) log.sequence)
        (TellsFirst geometry image)) }
    ensures magic { OfImage (D.content disk.old)
        (λ image. MatchResult result (λ _. HasMagic (image 0)) (TellsMagic (image 0))) }
    ensures sizes { D.stated disk.new ≡ Some geometry }
    ensures step { Goes Same (D.content disk.old) (D.content disk.new) }
    ensures time { AddsNoCut D.content D.moment D.left_since disk.old disk.new }
    ensures faults { D.faults disk.old ≤ D.faults disk.new }
    ensures cause { IfErr result (λ fault. fault ≡ DiskFault → Rose (D.faults disk.old) (D.faults disk.new)) }
{
    let log = log_behind(disk, geometry, &[], places, blocks)?;
    test_sums(disk, geometry, &[], &log, places, blocks)?;
    Ok(log)
}

// The log behind these, once it has passed its tests: its sequence is to be the one wanted.
fn older_log<D: Disk>(
    disk: &mut D,
    geometry: Geometry,
    above: &[Log],
    wanted: u32,
    places: &mut [u32],
    blocks: &mut [u8],
) -> Result<Log, ChainFault>
    requires sizes { D.stated disk.old ≡ Some geometry }
    requires logs { AreLogs geometry above.now }
    requires table { IsTable geometry places.old }
    requires follows { Follows geometry (base (generations_of geometry above.now)) places.old }
    requires some { 0 < length above.now }
    requires deep { length above.now < 2 ^ 32 }
    requires eight { length blocks.old ≡ 8 * geometry.block_size }
    ensures log { IfOk result (λ log. IsLog geometry log) }
    ensures sequence { IfOk result (λ log. log.sequence ≡ wanted) }
    ensures table { OnOk result (IsTable geometry places.new) }
    ensures follows { let gens = generations_of geometry above.now in
        IfOk result (λ log. Follows geometry (base (gens ++ generation_of geometry log ∷ [])) places.new) }
    ensures tests { OfImage (D.content disk.old) (λ image.
        let gens = generations_of geometry above.now in
        AreAbove geometry image gens (wanted + 1)
        → MatchResult result (λ log. AreAbove geometry image (gens ++ generation_of geometry log ∷ []) wanted)
        (TellsFirst geometry image)) }
    ensures sizes { D.stated disk.new ≡ Some geometry }
    ensures step { Goes Same (D.content disk.old) (D.content disk.new) }
    ensures time { AddsNoCut D.content D.moment D.left_since disk.old disk.new }
    ensures faults { D.faults disk.old ≤ D.faults disk.new }
    ensures cause { IfErr result (λ fault. fault ≡ DiskFault → Rose (D.faults disk.old) (D.faults disk.new)) }
{
    let log = log_behind(disk, geometry, above, places, blocks)?;
    let found = log.sequence;
    if found != wanted {
        let depth = above.len() as u32;
        return Err(ChainFault::BadSequence {
            depth,
            found,
            wanted,
        });
    }
    test_sums(disk, geometry, above, &log, places, blocks)?;
    Ok(log)
}

// Adds the logs behind these, down to the first: so many are to come.
fn add_older<D: Disk>(
    disk: &mut D,
    geometry: Geometry,
    logs: &mut Vec<Log>,
    left: u32,
    places: &mut [u32],
    blocks: &mut [u8],
) -> Result<(), ChainFault>
    requires sizes { D.stated disk.old ≡ Some geometry }
    requires logs { AreLogs geometry logs.old.items }
    requires one_log { length logs.old.items ≡ 1 }
    requires table { IsTable geometry places.old }
    requires follows { Follows geometry (base (generations_of geometry logs.old.items)) places.old }
    requires eight { length blocks.old ≡ 8 * geometry.block_size }
    requires numbered { AreNumbered logs.old.items left }
    ensures logs { OnOk result (AreLogs geometry logs.new.items) }
    ensures table { OnOk result (IsTable geometry places.new) }
    ensures follows { OnOk result (Follows geometry (base (generations_of geometry logs.new.items)) places.new) }
    ensures numbered { OnOk result (AreNumbered logs.new.items 0) }
    ensures deep { OnOk result (length logs.new.items ≤ 2 ^ 32) }
    ensures tests { OfImage (D.content disk.old) (λ image.
        AreAbove geometry image (generations_of geometry logs.old.items) left
        → MatchResult result (λ _. AreAbove geometry image (generations_of geometry logs.new.items) 0)
        (TellsFirst geometry image)) }
    ensures some { OnOk result (0 < length logs.new.items) }
    ensures sizes { D.stated disk.new ≡ Some geometry }
    ensures step { Goes Same (D.content disk.old) (D.content disk.new) }
    ensures time { AddsNoCut D.content D.moment D.left_since disk.old disk.new }
    ensures faults { D.faults disk.old ≤ D.faults disk.new }
    ensures cause { IfErr result (λ fault. fault ≡ DiskFault → Rose (D.faults disk.old) (D.faults disk.new)) }
{
    for wanted in (0..left).rev() {
        let log = older_log(disk, geometry, logs, wanted, places, blocks)?;
        logs.push(log)?;
    }
    Ok(())
}

// All logs, once they have passed their tests. The table has each block in its own place, and then where these logs
// have put it.
fn tested_logs<D: Disk>(
    alloc: Global,
    disk: &mut D,
    geometry: Geometry,
    places: &mut [u32],
) -> Result<Vec<Log>, ChainFault>
    requires valid { IsValid geometry }
    requires sizes { D.stated disk.old ≡ Some geometry }
    requires table { IsTable geometry places.old }
    requires follows { Follows geometry (λ x. x) places.old }
    ensures logs { IfOk result (λ logs. AreWhole geometry logs.items) }
    ensures table { OnOk result (IsTable geometry places.new) }
    ensures follows { IfOk result (λ logs. Follows geometry (base (generations_of geometry logs.items)) places.new) }
    ensures sound { OfImage (D.content disk.old)
        (λ image. MatchResult result (λ logs. IsSoundWith geometry image (generations_of geometry logs.items))
        (TellsFirst geometry image)) }
    ensures magic { OfImage (D.content disk.old)
        (λ image. MatchResult result (λ _. HasMagic (image 0)) (TellsMagic (image 0))) }
    ensures sizes { D.stated disk.new ≡ Some geometry }
    ensures step { Goes Same (D.content disk.old) (D.content disk.new) }
    ensures time { AddsNoCut D.content D.moment D.left_since disk.old disk.new }
    ensures faults { D.faults disk.old ≤ D.faults disk.new }
    ensures cause { IfErr result (λ fault. fault ≡ DiskFault → Rose (D.faults disk.old) (D.faults disk.new)) }
{
    let mut blocks = vec![in alloc; 0u8; 8 * geometry.block_size as usize]?;
    let mut logs = Vec::new(alloc);
    let first = first_log(disk, geometry, places, &mut blocks)?;
    let left = first.sequence;
    logs.push(first)?;
    add_older(disk, geometry, &mut logs, left, places, &mut blocks)?;
    Ok(logs)
}

/// Loads the chain of logs of the image that the disk holds. It makes reads alone, and looks at each block of each
/// entry once. Its memory is that of the logs, which lie in blocks of their own, one number for each block of the
/// device, which is taken before the first read, and eight blocks.
///
/// The chain is loaded exactly where the image is sound. Else the first fault is told: `NoLog` exactly where block 0
/// begins with neither magic, and `BadLog`, `BadSequence` and `BadSum` with the values that were found. `DiskFault`
/// comes only where the disk's count of faults rose in this call, `NoMemory` where there is none; either may come in
/// place of what lies behind.
///
/// Condition: the geometry is valid and the disk's.
pub fn load<D: Disk>(alloc: Global, disk: &mut D, geometry: Geometry) -> Result<Chain, ChainFault>
    requires valid { IsValid geometry }
    requires sizes { D.stated disk.old ≡ Some geometry }
    ensures geometry { IfOk result (λ chain. chain.geometry ≡ geometry) }
    // Over a disk that tells its content: what is loaded, and what is told.
    ensures sound { OfImage (D.content disk.old)
        (λ image. IfOk result (λ chain. IsSoundWith geometry image chain.generations)) }
    ensures fault { OfImage (D.content disk.old) (λ image. IfErr result (TellsFirst geometry image)) }
    // Each sound image is loaded, and each first fault told, unless the disk fails or memory is wanting.
    ensures each_sound { OfImage (D.content disk.old) (λ image.
        (log : Generation) (older : List Generation) → IsSound geometry image log older
        → MatchResult result (λ chain. chain.generations ≡ log ∷ older) IsOutside) }
    ensures each_fault { OfImage (D.content disk.old) (λ image.
        (first : ChainFault) → IsFirstFault geometry image first
        → MatchResult result (λ _. ⊥) (λ fault. (fault ≡ first) ⊎ IsOutside fault)) }
    // There is no log exactly where block 0 has no magic.
    ensures magic { OfImage (D.content disk.old)
        (λ image. MatchResult result (λ _. HasMagic (image 0)) (TellsMagic (image 0))) }
    ensures few { (c : Content) → D.content disk.old ≡ Some c
        → IfOk result (λ chain. length chain.generations ≤ geometry.blocks) }
    // Nothing but reads is made.
    ensures sizes { D.stated disk.new ≡ Some geometry }
    ensures step { Goes Same (D.content disk.old) (D.content disk.new) }
    ensures cuts { AddsNoCut D.content D.moment D.left_since disk.old disk.new }
    ensures faults { D.faults disk.old ≤ D.faults disk.new }
    ensures cause { IfErr result (λ fault. fault ≡ DiskFault → Rose (D.faults disk.old) (D.faults disk.new)) }
{
    let mut places = own_places(alloc, geometry)?;
    let logs = tested_logs(alloc, disk, geometry, &mut places)?;
    Ok(Chain {
        geometry,
        logs,
        places,
    })
}
