// A script that callers run, each lane by a pass of its own, with its transcript and the receipts of its calls.
ghost use Rattle.std.specs.Prelude.{◌≡◌, ◌↔◌, ◌++◌, Bool, IsTrue, Some, IfErr, IfOk, true};
ghost use Rattle.bow_disk.specs.Disk.{Content};
ghost use Rattle.bow_core.specs.Views.{View};
ghost use Rattle.bow_history.specs.Complete.{IsComplete};
ghost use Rattle.bow_play.specs.Playing.{IsFresh};
ghost use Rattle.bow_receipts.specs.Called.{IsCalled};
ghost use Rattle.bow_receipts.specs.Closing.{entries_of, plan_by};
ghost use Rattle.bow_receipts.specs.Served.{HaveBlocksRead, entry_of};
ghost use Rattle.bow_report.specs.Texts.{transcript_text};
ghost use Rattle.bow_script.specs.Scripts.{IsWellFormed, IsWithinLimits};
ghost use Rattle.bow_session.specs.Requests.{lanes_of as lanes_in, plan_of};
ghost use Rattle.bow_units.specs.Sizes.{IsBlockSize, IsValid};
ghost use Rattle.bow_tool.specs.CallLines.{AreNumbered, bytes_by, receipts_text};
ghost use Rattle.bow_tool.specs.Callers.{CallersCame, HasCommitted, IsCommitCall};
ghost use Rattle.bow_tool.specs.Outside.{call_of, disk_view, keeper_view, source_view};
ghost use Rattle.bow_tool.specs.Outcomes.{IsCalledTold};
ghost use Rattle.bow_tool.specs.Play.{Clears};

use crate::call_lines::call_lines;
use crate::outcomes::Outcome;
use crate::plays::{clear_after, disk_law, refusal_of, told};
use crate::refusals::Refusal;
use bow_core::Core;
use bow_disk::Disk;
use bow_play::open;
use bow_ranges::Ranges;
use bow_receipts::{Call, Called, Closed, run_callers};
use bow_script::Script;
use bow_session::Item;
use bow_tree::RangeTree;
use bow_units::{Gate, Geometry, NoMemory, Op, Outcome as Answered, Source};
use std::alloc::Global;
use std::sync::Wait;
use std::thread::Threads;
use vold_meta::Keeper;

// Runs the script that the source gives by callers; removes the attempts where a commit was answered `Done`; and gives
// the transcript and the receipts.
pub(crate) fn call_script<
    H: Threads + Wait + Sync,
    D: Disk + Send,
    K: Keeper,
    S: Source,
    G: Gate + Sync,
>(rt: &H, alloc: Global, disk: D, keeper: K, source: &mut S, gate: &G) -> (Outcome, D, K)
    ensures { let call = call_of (source_view S.left S.gave S.ended S.faults)
        (disk_view D.stated D.content D.moment D.left_since D.faults)
        (keeper_view K.kept K.moment K.left_since K.faults) source.old source.new disk result.1 keeper result.2
        in CallersCame call result.0 }
{
    disk_law::<D>();
    let (core, script): (Core<D, RangeTree>, Script) = match open(alloc, disk, source) {
        Ok(opened) => opened,
        Err((fault, disk)) => return (Outcome::Refused(refusal_of(fault)), disk, keeper),
    };
    let lanes = lanes_of(&script);
    match run_calls(rt, alloc, core, script, gate) {
        Ok(called) => end_calls(alloc, called, lanes, keeper),
        Err((core, NoMemory)) => {
            let disk = core.close();
            (Outcome::Refused(Refusal::NoMemory), disk, keeper)
        }
    }
}

// The largest number of lanes in a section.
fn lanes_of(script: &Script) -> usize
    ensures { result ≡ lanes_in script.now }
{
    let mut lanes = 0;
    for section in &script.sections {
        lanes = lanes.max(section.lanes.len());
    }
    lanes
}

// Runs the script by callers. Where it has no lane nobody calls, and no thread starts.
fn run_calls<H: Threads + Wait + Sync, D: Disk + Send, R: Ranges + Send + Drop, G: Gate + Sync>(
    rt: &H,
    alloc: Global,
    core: Core<D, R>,
    script: Script,
    gate: &G,
) -> Result<Called<D, R>, (Core<D, R>, NoMemory)>
    requires limits { IsWithinLimits script }
    requires numbers { IsWellFormed script }
    requires fresh { IsFresh core }
    requires valid { IsValid core.geometry }
    requires sizes { D.stated core.disk ≡ Some core.geometry }
    ensures called { IfOk result (λ r. IsCalled D.content D.moment D.left_since D.faults core.geometry
        (lanes_in script) (λ first. first ≡ core) script r.closed.core r.closed.journal.items
        (entries_of r.closed.calls.items)) }
    ensures complete { IfOk result (λ r. r.whole ≡ true
        → IsComplete (plan_of core.geometry script) r.closed.journal.items) }
    ensures kept { IfErr result (λ e. e.0 ≡ core) }
{
    if lanes_of(&script) == 0 {
        return Ok(nobody(alloc, core, &script));
    }
    run_callers(rt, alloc, core, script, gate)
}

// What is left of a script without a lane: the device as it was opened.
fn nobody<D: Disk, R: Ranges + Drop>(
    alloc: Global,
    core: Core<D, R>,
    script: &Script,
) -> Called<D, R>
    requires none { lanes_in script.now ≡ 0 }
    requires fresh { IsFresh core }
    requires valid { IsValid core.geometry }
    requires sizes { D.stated core.disk ≡ Some core.geometry }
    ensures called { IsCalled D.content D.moment D.left_since D.faults core.geometry (lanes_in script.now)
        (λ first. first ≡ core) script.now result.closed.core result.closed.journal.items
        (entries_of result.closed.calls.items) }
    ensures complete { IsComplete (plan_of core.geometry script.now) result.closed.journal.items }
{
    let journal = Vec::new(alloc);
    let calls = Vec::new(alloc);
    let closed = Closed {
        core,
        journal,
        calls,
    };
    Called {
        closed,
        whole: true,
    }
}

// Removes the attempts where a commit was answered `Done`, and gives what is told, the disk and the keeper. Where a
// call found no memory, that is told.
fn end_calls<D: Disk, R: Ranges + Drop, K: Keeper>(
    alloc: Global,
    called: Called<D, R>,
    lanes: usize,
    mut keeper: K,
) -> (Outcome, D, K)
    requires numbers { AreNumbered (entries_of called.closed.calls.items) }
    requires blocks { HaveBlocksRead called.closed.core.geometry.block_size (entries_of called.closed.calls.items) }
    requires size { IsBlockSize called.closed.core.geometry.block_size }
    ensures disk { result.1 ≡ called.closed.core.disk }
    ensures sizes { D.stated called.closed.core.disk ≡ Some called.closed.core.geometry }
    ensures told { (cleared : Bool) × Clears (keeper_view K.kept K.moment K.left_since K.faults) (HasCommitted
        (entries_of called.closed.calls.items)) keeper result.2 cleared × IsCalledTold called.whole (transcript_text
        (plan_by called.closed.core.geometry lanes (entries_of called.closed.calls.items)) (bytes_by (entries_of
        called.closed.calls.items)) called.closed.journal.items ++ receipts_text lanes (entries_of
        called.closed.calls.items)) cleared result.0 }
{
    let Called { closed, whole } = called;
    let Closed {
        core,
        journal,
        calls,
    } = closed;
    let items = journal.as_slice();
    let answers = calls.as_slice();
    let cleared = clear_after(has_committed(answers), &mut keeper);
    let geometry = core.geometry();
    let text = lines_of(alloc, whole, geometry, lanes, items, answers);
    let disk = core.close();
    (told(text, cleared), disk, keeper)
}

// What is told where all was called. Else a call found no memory.
fn lines_of(
    alloc: Global,
    whole: bool,
    geometry: Geometry,
    lanes: usize,
    journal: &[Item],
    calls: &[Call],
) -> Result<Vec<u8>, NoMemory>
    requires size { IsBlockSize geometry.block_size }
    requires numbers { AreNumbered (entries_of calls.now) }
    requires blocks { HaveBlocksRead geometry.block_size (entries_of calls.now) }
    ensures whole { IfOk result (λ _. whole ≡ true) }
    ensures text { IfOk result (λ text. text.items ≡ transcript_text (plan_by geometry lanes (entries_of calls.now))
        (bytes_by (entries_of calls.now)) journal.now ++ receipts_text lanes (entries_of calls.now)) }
{
    if !whole {
        return Err(NoMemory);
    }
    call_lines(alloc, geometry, lanes, journal, calls)
}

// Whether a commit was answered `Done`.
fn has_committed(calls: &[Call]) -> bool
    ensures { IsTrue result ↔ HasCommitted (entries_of calls.now) }
{
    for call in calls {
        if is_commit_done(call) {
            return true;
        }
    }
    false
}

// Whether it is a commit that was answered `Done`.
fn is_commit_done(call: &Call) -> bool
    ensures { IsTrue result ↔ IsCommitCall (entry_of call.now) }
{
    matches!(call.op, Op::Commit) && call.answer.outcome == Answered::Done
}
