// A script that several devices play, to commit together or to roll back.
ghost use Rattle.std.specs.Prelude.{◌≡◌, ◌≤◌, [], IfErr, IfOk, MatchResult, OnErr, OnOk, length};
ghost use Rattle.bow_pair.specs.Deciding.{disks_of};
ghost use Rattle.bow_pair.specs.Pairs.{AreReady, MayBeDealt};
ghost use Rattle.bow_tool.specs.Outside.{disk_view, keeper_view, source_view};
ghost use Rattle.bow_tool.specs.PairCalls.{OnlyRead, pair_call_of};
ghost use Rattle.bow_tool.specs.PairLines.{PairRun};
ghost use Rattle.bow_tool.specs.PairPlays.{IsPairTold, JoinedCame, KeeperCause, KeepsNothing, PairCame, StopsShort};
ghost use Rattle.bow_tool.specs.PairPlays.{WentTo, refusal_of_pair};
ghost use Rattle.bow_tool.specs.declared.outcomes.Outcome.{Outcome};
ghost use Rattle.bow_tool.specs.declared.refusals.Refusal.{Refusal};

use crate::outcomes::Outcome;
use crate::pair_lines::pair_lines;
use crate::pair_scripts::pair_script;
use crate::refusals::Refusal;
use crate::verdicts::{Verdict, verdict_of};
use bow_disk::Disk;
use bow_pair::{Pair, PairFault, Prepared, Ran, pair_runs_law, pair_sessions_law};
use bow_ranges::Ranges;
use bow_script::Script;
use bow_tree::RangeTree;
use bow_units::{NoMemory, Source};
use std::alloc::Global;
use vold_meta::{DecisionFault, Keeper, read_decision};

// Plays the script that the source gives over the devices on these disks, by the draws of this number, so that they
// commit together or roll back; and gives what is told of them, the disks and the keeper.
pub(crate) fn play_pair<D: Disk + Drop, K: Keeper, S: Source>(
    alloc: Global,
    number: u64,
    disks: Vec<D>,
    mut keeper: K,
    source: &mut S,
) -> (Outcome, Vec<D>, K)
    requires some { 2 ≤ length disks.items }
    requires few { length disks.items ≤ 8 }
    ensures { let call = pair_call_of (source_view S.left S.gave S.ended S.faults)
        (disk_view D.stated D.content D.moment D.left_since D.faults)
        (keeper_view K.kept K.moment K.left_since K.faults) source.old source.new disks.items result.1.items keeper
        result.2 in PairCame call result.0 }
{
    let script = match pair_script(alloc, source) {
        Ok(script) => script,
        Err(refusal) => return (Outcome::Refused(refusal), disks, keeper),
    };
    if let Err(refusal) = keeps_nothing(&mut keeper) {
        return (Outcome::Refused(refusal), disks, keeper);
    }
    pair_sessions_law::<D>();
    pair_runs_law::<D>();
    let count = disks.len() as u32;
    match Pair::<D, RangeTree>::join_up(alloc, disks) {
        Ok(pair) => play_joined(alloc, pair, count, script, number, keeper),
        Err((fault, disks)) => (Outcome::Refused(refusal_of_pair(fault)), disks, keeper),
    }
}

// Plays the script over so many joined devices, and gives what is told of them, their disks and the keeper.
fn play_joined<D: Disk + Drop, R: Ranges + Drop, K: Keeper>(
    alloc: Global,
    mut pair: Pair<D, R>,
    count: u32,
    script: Script,
    number: u64,
    mut keeper: K,
) -> (Outcome, Vec<D>, K)
    requires script { MayBeDealt script }
    requires ready { AreReady 0 pair.cores }
    requires fresh { (pair.openings ≡ []) × (pair.laters ≡ []) }
    ensures { JoinedCame (disk_view D.stated D.content D.moment D.left_since D.faults) (keeper_view K.kept K.moment
        K.left_since K.faults) script pair.cores keeper result.2 result.1.items count result.0 }
{
    match play_parts(alloc, &mut pair, script, number, &mut keeper) {
        Ok(verdict) => {
            let text = pair_lines(alloc, &pair, count, verdict);
            (told_pair(text, verdict), pair.close(), keeper)
        }
        Err(NoMemory) => (Outcome::Refused(Refusal::NoMemory), pair.close(), keeper),
    }
}

// Plays the first sessions, and where all devices are prepared the second ones; and where none of them failed commits
// them together. Each takes its memory before its first step.
fn play_parts<D: Disk + Drop, R: Ranges + Drop, K: Keeper>(
    alloc: Global,
    pair: &mut Pair<D, R>,
    script: Script,
    number: u64,
    keeper: &mut K,
) -> Result<Verdict, NoMemory>
    requires script { MayBeDealt script }
    requires ready { AreReady 0 pair.old.cores }
    requires fresh { (pair.old.openings ≡ []) × (pair.old.laters ≡ []) }
    ensures went { IfOk result (λ verdict. (r : PairRun D) × WentTo (disk_view D.stated D.content D.moment D.left_since
        D.faults) (keeper_view K.kept K.moment K.left_since K.faults) script pair.old.cores keeper.old keeper.new
        (disks_of pair.new.cores) r verdict pair.new) }
    ensures short { OnErr result (StopsShort (disk_view D.stated D.content D.moment D.left_since D.faults) (keeper_view
        K.kept K.moment K.left_since K.faults) script pair.old.cores keeper.old keeper.new (disks_of pair.new.cores)) }
{
    match pair.prepare(alloc, script, number)? {
        Prepared::All => {}
        Prepared::NotAll { device } => return Ok(Verdict::NotPrepared(device)),
    }
    match pair.run(alloc)? {
        Ran::Clean => {}
        Ran::Faulty { device } => return Ok(Verdict::NotCommitted(device)),
    }
    Ok(verdict_of(pair.decide(keeper)))
}

// The lines of devices as they are told: where a device or the keeper failed with the decision, with its refusal.
fn told_pair(text: Result<Vec<u8>, NoMemory>, verdict: Verdict) -> Outcome
    ensures { MatchResult text (λ t. IsPairTold t.items verdict result)
        (λ _. result ≡ Outcome.Refused Refusal.NoMemory) }
{
    let Ok(text) = text else {
        return Outcome::Refused(Refusal::NoMemory);
    };
    match verdict {
        Verdict::Failed(refusal) => Outcome::Behind(refusal, text),
        Verdict::Committed | Verdict::NotPrepared(_) | Verdict::NotCommitted(_) => {
            Outcome::Done(text)
        }
    }
}

// Nothing may be kept as the devices are joined: what they keep has to be settled first.
fn keeps_nothing<K: Keeper>(keeper: &mut K) -> Result<(), Refusal>
    ensures read { OnlyRead (keeper_view K.kept K.moment K.left_since K.faults) keeper.old keeper.new }
    ensures nothing { OnOk result (KeepsNothing (keeper_view K.kept K.moment K.left_since K.faults) keeper.old) }
    ensures cause { IfErr result (KeeperCause (keeper_view K.kept K.moment K.left_since K.faults) keeper.old
        keeper.new) }
{
    match read_decision(keeper) {
        Ok(false) => Ok(()),
        Ok(true) => Err(Refusal::NeedsRestore),
        Err(DecisionFault::BadDecision) => Err(Refusal::NeedsRestore),
        Err(DecisionFault::KeeperFault) => Err(Refusal::KeeperFault),
    }
}

// Why devices can't be joined, as a refusal.
fn refusal_of_pair(fault: PairFault) -> Refusal
    ensures { result ≡ refusal_of_pair fault }
{
    match fault {
        PairFault::BadGeometry { geometry, .. } => Refusal::BadGeometry(geometry),
        PairFault::NeedsRestore { .. } => Refusal::NeedsRestore,
        PairFault::DiskFault => Refusal::DiskFault,
        PairFault::NoMemory => Refusal::NoMemory,
    }
}
