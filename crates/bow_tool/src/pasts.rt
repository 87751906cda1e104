// The play of a script beside a reader of the checkpoint, with its transcript and the reader's lines.
ghost use Rattle.std.specs.Prelude.{◌≡◌, ◌≤◌, Bool, IfOk};
ghost use Rattle.bow_session.specs.Sessions.{plan_in};
ghost use Rattle.bow_past.specs.Beside.{IsNew, MaybeAgrees};
ghost use Rattle.bow_play.specs.Committing.{HasCommitted};
ghost use Rattle.bow_words.specs.declared.commands.Command.TheVariants as commands;
ghost use Rattle.bow_tool.specs.Commands.{IsOutcome};
ghost use Rattle.bow_tool.specs.Outside.{call_of, disk_view, keeper_view, source_view};
ghost use Rattle.bow_tool.specs.Play.{Clears};
ghost use Rattle.bow_tool.specs.Pasts.{ArePastLines, IsFirstReader, IsOfBlocks, IsTextBeside, IsToldBeside};

use crate::lines::line;
use crate::outcomes::Outcome;
use crate::plays::{clear_after, refusal_of, told};
use crate::refusals::Refusal;
use bow_disk::Disk;
use bow_past::{Past, reading_lines, run_beside};
use bow_play::{has_committed, load};
use bow_ranges::Ranges;
use bow_report::transcript;
use bow_session::Session;
use bow_tree::RangeTree;
use bow_units::{Extent, Geometry, NoMemory, Source};
use std::alloc::Global;
use vold_meta::Keeper;

// Plays the script that the source gives, by the draws of this number, beside a reader of so many blocks of the
// checkpoint from the first one on; removes the attempts where a commit was answered `Done`; and gives the transcript
// and the reader's lines.
pub(crate) fn play_beside<D: Disk, K: Keeper, S: Source>(
    alloc: Global,
    number: u64,
    first: u32,
    count: u32,
    disk: D,
    keeper: K,
    source: &mut S,
) -> (Outcome, D, K)
    requires few { count ≤ 4096 }
    ensures { let call = call_of (source_view S.left S.gave S.ended S.faults)
        (disk_view D.stated D.content D.moment D.left_since D.faults)
        (keeper_view K.kept K.moment K.left_since K.faults) source.old source.new disk result.1 keeper result.2
        in IsOutcome (commands.Past number first count) call result.0 }
{
    let mut session: Session<D, RangeTree> = match load(alloc, disk, source) {
        Ok(session) => session,
        Err((fault, disk)) => return (Outcome::Refused(refusal_of(fault)), disk, keeper),
    };
    let extent = Extent {
        first: first as u64,
        count: count as u64,
    };
    match begin_reader(alloc, extent, &session) {
        Ok(past) => {
            let past = run_beside(alloc, number, past, &mut session);
            end_beside(alloc, session, extent, past, keeper)
        }
        Err(NoMemory) => {
            let disk = session.close().close();
            (Outcome::Refused(Refusal::NoMemory), disk, keeper)
        }
    }
}

// A reader of these blocks beside a session that has made no step, where they are on the device.
fn begin_reader<D: Disk, R: Ranges + Drop>(
    alloc: Global,
    extent: Extent,
    session: &Session<D, R>,
) -> Result<Option<Past>, NoMemory>
    requires few { extent.count ≤ 4096 }
    ensures first { IfOk result (λ r. IsFirstReader session.now.core.geometry extent r) }
    ensures agrees { IfOk result (λ r. MaybeAgrees D.content r session.now.core) }
    ensures new { IfOk result (λ r. IsNew r) }
{
    if !extent.inside(session.geometry()) {
        return Ok(None);
    }
    Ok(Some(Past::begin(alloc, extent, session)?))
}

// Removes the attempts where the session has committed, and gives its text, the disk and the keeper.
fn end_beside<D: Disk, R: Ranges + Drop, K: Keeper>(
    alloc: Global,
    session: Session<D, R>,
    extent: Extent,
    past: Option<Past>,
    mut keeper: K,
) -> (Outcome, D, K)
    requires { IsOfBlocks extent past }
    ensures disk { result.1 ≡ session.core.disk }
    ensures told { (cleared : Bool) × Clears (keeper_view K.kept K.moment K.left_since K.faults) (HasCommitted (plan_in
        session) session.journal) keeper result.2 cleared × IsToldBeside extent session past cleared result.0 }
{
    let cleared = clear_after(has_committed(&session), &mut keeper);
    let text = text_beside(alloc, &session, extent, &past);
    let disk = session.close().close();
    (told(text, cleared), disk, keeper)
}

// The transcript of a session, and then the lines of the reader beside it.
fn text_beside<D: Disk, R: Ranges + Drop>(
    alloc: Global,
    session: &Session<D, R>,
    extent: Extent,
    past: &Option<Past>,
) -> Result<Vec<u8>, NoMemory>
    requires { IsOfBlocks extent past.now }
    ensures { IfOk result (λ text. IsTextBeside extent session.now past.now text.items) }
{
    let mut text = transcript(alloc, session)?;
    let lines = past_lines(alloc, session.geometry(), extent, past)?;
    text.extend_from_slice(&lines)?;
    Ok(text)
}

// The lines of a reader of these blocks, or the one that they are not on the device. `NoMemory` is answered also where
// the reader was given up.
fn past_lines(
    alloc: Global,
    geometry: Geometry,
    extent: Extent,
    past: &Option<Past>,
) -> Result<Vec<u8>, NoMemory>
    requires { IsOfBlocks extent past.now }
    ensures { IfOk result (λ lines. ArePastLines geometry extent past.now lines.items) }
{
    if !extent.inside(geometry) {
        return line(alloc, b"past out of range\n");
    }
    match past {
        Some(past) => reading_lines(alloc, past),
        None => Err(NoMemory),
    }
}
