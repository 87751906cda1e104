// The play of a script, on one thread or by threads, with its transcript.
ghost use Rattle.std.specs.Prelude.{◌≡◌, ◌≤◌, ℕ, Bool, IsTrue, List, [], Some, IfErr, IfOk, MatchResult};
ghost use Rattle.bow_units.specs.declared.sizes.Geometry.{Geometry};
ghost use Rattle.bow_disk.specs.Disk.{Content, IsCrash, IsImage, IsShaped};
ghost use Rattle.bow_core.specs.Views.{View};
ghost use Rattle.bow_history.specs.Complete.{IsComplete};
ghost use Rattle.bow_history.specs.Fits.{Agrees};
ghost use Rattle.bow_play.specs.Committing.{HasCommitted};
ghost use Rattle.bow_session.specs.Leads.{WasLoaded};
ghost use Rattle.bow_session.specs.Sessions.{IsOver, plan_in, state_in};
ghost use Rattle.bow_tool.specs.Commands.{IsOutcome};
ghost use Rattle.bow_tool.specs.Outside.{call_of, disk_view, keeper_view, source_view};
ghost use Rattle.bow_tool.specs.Play.{Clears, refusal_for, transcript_of};
ghost use Rattle.bow_tool.specs.Outcomes.{IsTranscriptTold};
ghost use Rattle.bow_tool.specs.declared.outcomes.Outcome.{Outcome};
ghost use Rattle.bow_tool.specs.declared.refusals.Refusal.{Refusal};
ghost use Rattle.bow_words.specs.declared.commands.Command.TheVariants.{Play, Run};

use crate::outcomes::Outcome;
use crate::refusals::Refusal;
use bow_disk::Disk;
use bow_play::{PlayFault, has_committed, load, play};
use bow_ranges::Ranges;
use bow_report::transcript;
use bow_session::Session;
use bow_shared::run;
use bow_tree::RangeTree;
use bow_units::{Gate, NoMemory, Source};
use std::alloc::Global;
use std::sync::Wait;
use std::thread::Threads;
use vold_commands::committed;
use vold_meta::Keeper;

// Plays the script that the source gives, by the draws of this number; removes the attempts where a commit was answered
// `Done`; and gives the transcript.
pub(crate) fn play_script<D: Disk, K: Keeper, S: Source>(
    alloc: Global,
    number: u64,
    disk: D,
    keeper: K,
    source: &mut S,
) -> (Outcome, D, K)
    ensures { let call = call_of (source_view S.left S.gave S.ended S.faults)
        (disk_view D.stated D.content D.moment D.left_since D.faults)
        (keeper_view K.kept K.moment K.left_since K.faults) source.old source.new disk result.1 keeper result.2
        in IsOutcome (Play number) call result.0 }
{
    let session: Session<D, RangeTree> = match play(alloc, number, disk, source) {
        Ok(session) => session,
        Err((fault, disk)) => return (Outcome::Refused(refusal_of(fault)), disk, keeper),
    };
    end_session(alloc, session, keeper)
}

// The same by threads, of which so many serve the lanes.
pub(crate) fn run_script<
    H: Threads + Wait + Sync,
    D: Disk + Send,
    K: Keeper,
    S: Source,
    G: Gate + Sync,
>(
    rt: &H,
    alloc: Global,
    servers: u32,
    disk: D,
    keeper: K,
    source: &mut S,
    gate: &G,
) -> (Outcome, D, K)
    requires servers { (1 ≤ servers) × (servers ≤ 8) }
    ensures { let call = call_of (source_view S.left S.gave S.ended S.faults)
        (disk_view D.stated D.content D.moment D.left_since D.faults)
        (keeper_view K.kept K.moment K.left_since K.faults) source.old source.new disk result.1 keeper result.2
        in IsOutcome (Run servers) call result.0 }
{
    disk_law::<D>();
    let session: Session<D, RangeTree> = match load(alloc, disk, source) {
        Ok(session) => session,
        Err((fault, disk)) => return (Outcome::Refused(refusal_of(fault)), disk, keeper),
    };
    match run_session(rt, alloc, session, servers, gate) {
        Ok(session) => end_session(alloc, session, keeper),
        Err((session, NoMemory)) => {
            let disk = session.close().close();
            (Outcome::Refused(Refusal::NoMemory), disk, keeper)
        }
    }
}

// What a disk tells has its sizes, and a cut at a moment leaves what it may leave then: the laws of the trait, for a
// caller whose disk goes to other threads.
pub(crate) fn disk_law<D: Disk>()
    ensures shaped { (d : D) (c : Content) → D.content d ≡ Some c → (g : Geometry) → D.stated d ≡ Some g
        → IsShaped g.block_size g.blocks c }
    ensures cuts_shaped { (d : D) (c : Content) → D.content d ≡ Some c → (g : Geometry) → D.stated d ≡ Some g
        → (t : ℕ) (image : List (List ℕ)) → D.left_since d t image → IsImage g.block_size g.blocks image }
    ensures counts_now { (d : D) (c : Content) → D.content d ≡ Some c → (t : ℕ) (image : List (List ℕ))
        → t ≤ D.moment d → IsCrash c.candidates image → D.left_since d t image }
    ensures only_now { (d : D) (c : Content) → D.content d ≡ Some c → (t : ℕ) (image : List (List ℕ))
        → D.moment d ≤ t → D.left_since d t image → IsCrash c.candidates image }
{}

// Runs the session to its end by threads. Where its script has no lane there is nothing to run, and no thread starts.
fn run_session<H: Threads + Wait + Sync, D: Disk + Send, R: Ranges + Send + Drop, G: Gate + Sync>(
    rt: &H,
    alloc: Global,
    session: Session<D, R>,
    servers: u32,
    gate: &G,
) -> Result<Session<D, R>, (Session<D, R>, NoMemory)>
    requires servers { (1 ≤ servers) × (servers ≤ 8) }
    ensures over { IfOk result (λ s. IsOver s) }
    ensures script { IfOk result (λ s. s.script ≡ session.script) }
    ensures idle { IfOk result (λ s. s.core.memory.requests ≡ []) }
    ensures buffers { IfOk result (λ s. Agrees (plan_in s) (state_in s) (state_in s).kept) }
    ensures loaded { IfOk result (λ s. (first : View D)
        → WasLoaded D.stated D.content D.moment D.left_since D.faults first session
        → WasLoaded D.stated D.content D.moment D.left_since D.faults first s) }
    ensures complete { IfOk result (λ s. (first : View D)
        → WasLoaded D.stated D.content D.moment D.left_since D.faults first session
        → IsComplete (plan_in s) s.journal) }
    ensures kept { IfErr result (λ e. e.0 ≡ session) }
{
    if session.lanes() == 0 {
        let mut session = session;
        session.finish(0);
        return Ok(session);
    }
    run(rt, alloc, session, servers, gate)
}

// Removes the attempts where the session has committed, and gives its transcript, the disk and the keeper.
fn end_session<D: Disk, R: Ranges + Drop, K: Keeper>(
    alloc: Global,
    session: Session<D, R>,
    mut keeper: K,
) -> (Outcome, D, K)
    ensures disk { result.1 ≡ session.core.disk }
    ensures told { (cleared : Bool) × Clears (keeper_view K.kept K.moment K.left_since K.faults) (HasCommitted (plan_in
        session) session.journal) keeper result.2 cleared × IsTranscriptTold (transcript_of session) cleared result.0 }
{
    let cleared = clear_after(has_committed(&session), &mut keeper);
    let text = transcript(alloc, &session);
    let disk = session.close().close();
    (told(text, cleared), disk, keeper)
}

// Removes the attempts where a commit was answered `Done`, and answers whether that went well.
pub(crate) fn clear_after<K: Keeper>(has_committed: bool, keeper: &mut K) -> bool
    ensures { Clears (keeper_view K.kept K.moment K.left_since K.faults) (IsTrue has_committed) keeper.old keeper.new
        result }
{
    if !has_committed {
        return true;
    }
    committed(keeper).is_ok()
}

// The transcript as it is told: with the line of the keeper's fault where it failed.
pub(crate) fn told(text: Result<Vec<u8>, NoMemory>, cleared: bool) -> Outcome
    ensures { MatchResult text (λ t. IsTranscriptTold t.items cleared result)
        (λ _. result ≡ Outcome.Refused Refusal.NoMemory) }
{
    let Ok(mut text) = text else {
        return Outcome::Refused(Refusal::NoMemory);
    };
    if cleared {
        return Outcome::Done(text);
    }
    match text.extend_from_slice(b"keeper fault\n") {
        Ok(()) => Outcome::Behind(Refusal::KeeperFault, text),
        Err(_) => Outcome::Refused(Refusal::NoMemory),
    }
}

// Why there was no play, as a refusal.
pub(crate) fn refusal_of(fault: PlayFault) -> Refusal
    ensures { result ≡ refusal_for fault }
{
    match fault {
        PlayFault::SourceFault => Refusal::SourceFault,
        PlayFault::BadScript(line) => Refusal::BadScript(line),
        PlayFault::BadGeometry(sizes) => Refusal::BadGeometry(sizes),
        PlayFault::DiskFault => Refusal::DiskFault,
        PlayFault::NeedsRestore => Refusal::NeedsRestore,
        PlayFault::NoMemory => Refusal::NoMemory,
    }
}
