// The top call.
ghost use Rattle.std.specs.Prelude.{◌≡◌};
ghost use Rattle.bow_tool.specs.Tellings.{refusal_of_words};
ghost use Rattle.bow_tool.specs.Outside.{call_of, disk_view, keeper_view, source_view};
ghost use Rattle.bow_tool.specs.Commands.{IsInRange, IsManaged, IsOutcome, IsOutcomePut, IsPut, IsRefusalPut, TellsCommand, TellsWords};

use crate::attempts::{told_answer, told_attempts, told_start};
use crate::boots::boot_image;
use crate::callers::call_script;
use crate::checks::check;
use crate::drills::make_drill;
use crate::outcomes::{Outcome, outcome_of};
use crate::pasts::play_beside;
use crate::plays::{play_script, run_script};
use crate::refusals::Refusal;
use crate::restores::{forward_image, restore_image};
use crate::streams::put_all;
use bow_chain::fault_law;
use bow_disk::Disk;
use bow_units::{Gate, NoMemory, Sink, Source};
use bow_words::{Command, WordsFault, read_words, words_law};
use std::alloc::Global;
use std::sync::Wait;
use std::thread::Threads;
use vold_commands::{abort, mark, needs_checkpoint, needs_rollback, start};
use vold_meta::Keeper;

/// How a call of the program ended: its status, and the disk and the keeper as they are left.
#[derive(Drop)]
pub struct Ended<D, K> {
    pub status: u8,
    pub disk: D,
    pub keeper: K,
}

/// Does what the words ask for, and puts what it tells into the sink. The words are read by `read_words`. What they ask
/// for is done by `manage`, whose table has the other statuses; but `Run` and `Callers` are done by threads. They do
/// what `Play` does, with the same statuses, and the steps come in the order in which the threads get to make them, in
/// place of that of the draws. Before a lane's request each asks the gate until the gate lets it start: so these two
/// may wait, and no other command does.
///
/// By `Run` the lanes post their requests, servers make the steps, and the lines are those of `Play`. By `Callers` each
/// lane calls the device itself, with a pass and bytes of its own, and makes steps until its answer is there. Behind
/// the lines of `Play` stand the receipts of all calls, lane by lane: `receipt L.N at P`, P being the place of the
/// answer in the one journal of all, counted from 0. Each lane's calls are its requests, in order, each with the answer
/// that it was given. Where a call finds no memory, its lane and the later sections make no further call, and the
/// status is 11.
///
/// | Status | What the sink has taken | Comes |
/// |---|---|---|
/// | 2 | `bad words` | exactly where the words ask for nothing; nothing outside was touched |
/// | 5 | a front of what it was given | only where a call of the sink failed, or took nothing; in place of any other |
/// | 11 | `no memory` | for want of memory, in place of any other |
pub fn tool<
    H: Threads + Wait + Sync,
    D: Disk + Send,
    K: Keeper,
    S: Source,
    W: Sink,
    G: Gate + Sync,
>(
    rt: &H,
    alloc: Global,
    words: &[String],
    disk: D,
    keeper: K,
    source: &mut S,
    sink: &mut W,
    gate: &G,
) -> Ended<D, K>
    ensures { let call = call_of (source_view S.left S.gave S.ended S.faults)
        (disk_view D.stated D.content D.moment D.left_since D.faults)
        (keeper_view K.kept K.moment K.left_since K.faults) source.old source.new disk result.disk keeper result.keeper
        in TellsWords words.now call (W.contents sink.old) (W.contents sink.new) (W.faults sink.old)
        (W.faults sink.new) result.status }
{
    words_law();
    match read_words(alloc, words) {
        Ok(command) => serve(rt, alloc, command, disk, keeper, source, sink, gate),
        Err(fault) => {
            let status = put_refusal(alloc, sink, refusal_of(fault));
            Ended {
                status,
                disk,
                keeper,
            }
        }
    }
}

/// Does what a command asks for without threads, and puts what it tells into the sink. The sizes are those that the
/// disk states.
///
/// | Command | Asks | What the sink has taken at status 0 |
/// |---|---|---|
/// | `Play` | the source, the disk, the keeper after a commit | the transcript of the script that the source gives |
/// | `Past` | as `Play` | the transcript, and then the lines of the reader |
/// | `Restore` | the disk | `restored entries E marks M`, or `nothing to restore` |
/// | `Check` | the disk, which it only reads | the lines of the chain and `sound`, or `no log` |
/// | `Forward` | the disk | `forwarded`, or `nothing to forward` |
/// | `Start`, `Mark`, `Abort` | the keeper | `attempts A`, or `no attempts` |
/// | `NeedsCheckpoint`, `NeedsRollback` | the keeper, which it only reads | `yes` or `no` |
/// | `Boot` | the disk, the keeper, the disk | `plain`, `checkpointing M`, or `rolled back` |
/// | `Drill` | nothing of what it is given | the five lines of `drill` |
///
/// | Status | Line | Comes |
/// |---|---|---|
/// | 4 | `source fault` | only where a call of the source failed; no call was made on the disk |
/// | 3 | `bad script at line N` | exactly where the source gave no script: its first line at fault, 0 for the length |
/// | 8 | `needs restore` | exactly where `Play` or `Past` finds a magic in block 0; the image is unchanged |
/// | 13 | `bad geometry B N` | exactly where the disk states sizes that no device has; its image is unchanged |
/// | 6 | `disk fault` | only where a call of the disk failed before a request or a text |
/// | 9 | `bad chain: ..` | exactly where block 0 begins with a magic and the image is not sound: its first fault |
/// | 9 | `bad header: ..` | exactly where `Forward` finds a magic and a bad header, or a magic where that points |
/// | 7 | `keeper fault` | only where a call of the keeper failed; behind the transcript where a play had committed |
/// | 10 | `bad attempts` | exactly where a text is kept that is no number of attempts |
/// | 12 | `stopped after K writes` | exactly where the limit of a restoration is below the writes that it wants |
/// | 5 | a front of any text | only where a call of the sink failed, or took nothing; in place of any other |
/// | 11 | `no memory` | for want of memory, in place of any other |
///
/// What it does not ask is left as it was given. A request that the disk refuses is a line of the transcript, and no
/// status. Where nothing stands in the way and no call fails, the status is 0 or 11, or 12 where a limit was asked for.
///
/// A play makes its steps by the draws of its number, and where a commit was answered `Done` no attempts are kept any
/// more. Its journal is legal from the opening state of the image. A cut since it began leaves what might have been
/// left before, or a state on the journal's way; since the moment of an item, a state that has the item; at the end,
/// the last one. Whatever it leaves is promised: over any number of restorations and boots, each cut anywhere,
/// the first that ends well has the checkpoint back, or what was flushed.
///
/// `Past` plays so with one more actor, which reads the blocks of the checkpoint beside the writers: all this holds of
/// it too, and what it tells of a block was read in the checkpoint, at a point on the journal's way, and is what was
/// saved of the block, if it was in use. Where its blocks are not on the device nothing is read, and
/// `past out of range` stands in place of its lines. Where it finds no memory the requests are finished without it, and
/// the status is 11.
///
/// A cut in a restoration or a boot leaves what might have been left before, or an image that passes on what the one at
/// entry kept: so the checkpoint is never lost. A check leaves nothing that might not have been left before.
///
/// Condition: the command is neither `Run` nor `Callers`, a limit is at least 1, a start asks for at most 2147483646
/// retries, and 1 to 4096 blocks of the past are asked for.
pub fn manage<D: Disk, K: Keeper, S: Source, W: Sink>(
    alloc: Global,
    command: Command,
    disk: D,
    keeper: K,
    source: &mut S,
    sink: &mut W,
) -> Ended<D, K>
    requires range { IsInRange command }
    requires managed { IsManaged command }
    ensures { let call = call_of (source_view S.left S.gave S.ended S.faults)
        (disk_view D.stated D.content D.moment D.left_since D.faults)
        (keeper_view K.kept K.moment K.left_since K.faults) source.old source.new disk result.disk keeper result.keeper
        in TellsCommand command call (W.contents sink.old) (W.contents sink.new) (W.faults sink.old)
        (W.faults sink.new) result.status }
{
    let (outcome, disk, keeper) = obey(alloc, command, disk, keeper, source);
    fault_law();
    let status = put_outcome(alloc, sink, outcome);
    Ended {
        status,
        disk,
        keeper,
    }
}

// Does what a command asks for, and puts what it tells into the sink.
fn serve<H: Threads + Wait + Sync, D: Disk + Send, K: Keeper, S: Source, W: Sink, G: Gate + Sync>(
    rt: &H,
    alloc: Global,
    command: Command,
    disk: D,
    keeper: K,
    source: &mut S,
    sink: &mut W,
    gate: &G,
) -> Ended<D, K>
    requires { IsInRange command }
    ensures { let call = call_of (source_view S.left S.gave S.ended S.faults)
        (disk_view D.stated D.content D.moment D.left_since D.faults)
        (keeper_view K.kept K.moment K.left_since K.faults) source.old source.new disk result.disk keeper result.keeper
        in TellsCommand command call (W.contents sink.old) (W.contents sink.new) (W.faults sink.old)
        (W.faults sink.new) result.status }
{
    let (outcome, disk, keeper) = obey_with(rt, alloc, command, disk, keeper, source, gate);
    fault_law();
    let status = put_outcome(alloc, sink, outcome);
    Ended {
        status,
        disk,
        keeper,
    }
}

// Does what a command asks for, by threads where it wants them, and gives the text to put.
fn obey_with<H: Threads + Wait + Sync, D: Disk + Send, K: Keeper, S: Source, G: Gate + Sync>(
    rt: &H,
    alloc: Global,
    command: Command,
    disk: D,
    keeper: K,
    source: &mut S,
    gate: &G,
) -> (Outcome, D, K)
    requires { IsInRange command }
    ensures { let call = call_of (source_view S.left S.gave S.ended S.faults)
        (disk_view D.stated D.content D.moment D.left_since D.faults)
        (keeper_view K.kept K.moment K.left_since K.faults) source.old source.new disk result.1 keeper result.2
        in IsOutcome command call result.0 }
{
    match command {
        Command::Run(servers) => run_script(rt, alloc, servers, disk, keeper, source, gate),
        Command::Callers => call_script(rt, alloc, disk, keeper, source, gate),
        _ => obey(alloc, command, disk, keeper, source),
    }
}

// Why no command was read, as a refusal.
pub(crate) fn refusal_of(fault: WordsFault) -> Refusal
    ensures { result ≡ refusal_of_words fault }
{
    match fault {
        WordsFault::BadWords => Refusal::BadWords,
        WordsFault::NoMemory => Refusal::NoMemory,
    }
}

// Puts a text or the line of a refusal, and gives the status.
pub(crate) fn put_outcome<W: Sink>(alloc: Global, sink: &mut W, outcome: Outcome) -> u8
    ensures { IsOutcomePut outcome (W.contents sink.old) (W.contents sink.new) (W.faults sink.old) (W.faults sink.new)
        result }
{
    match outcome {
        Outcome::Done(text) => put_line(sink, &text, 0),
        Outcome::Refused(refusal) => put_refusal(alloc, sink, refusal),
        Outcome::Behind(refusal, text) => put_line(sink, &text, refusal.status()),
    }
}

// Puts the line of a refusal, and gives the status. Where the line finds no memory it is that of `NoMemory`.
pub(crate) fn put_refusal<W: Sink>(alloc: Global, sink: &mut W, refusal: Refusal) -> u8
    ensures { IsRefusalPut refusal (W.contents sink.old) (W.contents sink.new) (W.faults sink.old) (W.faults sink.new)
        result }
{
    match refusal.line(alloc) {
        Ok(line) => put_line(sink, line.as_bytes(), refusal.status()),
        Err(NoMemory) => put_line(sink, b"no memory\n", 11),
    }
}

// Puts a line, and gives this status, or 5.
fn put_line<W: Sink>(sink: &mut W, line: &[u8], status: u8) -> u8
    ensures { IsPut status line.now (W.contents sink.old) (W.contents sink.new) (W.faults sink.old)
        (W.faults sink.new) result }
{
    if put_all(sink, line) { status } else { 5 }
}

// Does what a command asks for, and gives the text to put.
fn obey<D: Disk, K: Keeper, S: Source>(
    alloc: Global,
    command: Command,
    mut disk: D,
    mut keeper: K,
    source: &mut S,
) -> (Outcome, D, K)
    requires range { IsInRange command }
    requires managed { IsManaged command }
    ensures { let call = call_of (source_view S.left S.gave S.ended S.faults)
        (disk_view D.stated D.content D.moment D.left_since D.faults)
        (keeper_view K.kept K.moment K.left_since K.faults) source.old source.new disk result.1 keeper result.2
        in IsOutcome command call result.0 }
{
    match command {
        Command::Play(number) => play_script(alloc, number, disk, keeper, source),
        Command::Run(_) | Command::Callers => unreachable!(),
        Command::Restore(limit) => {
            let answer = restore_image(alloc, &mut disk, limit);
            (outcome_of(answer), disk, keeper)
        }
        Command::Check => (outcome_of(check(alloc, &mut disk)), disk, keeper),
        Command::Forward => (outcome_of(forward_image(alloc, &mut disk)), disk, keeper),
        Command::Boot => {
            let answer = boot_image(alloc, &mut disk, &mut keeper);
            (outcome_of(answer), disk, keeper)
        }
        Command::Start(retries) => {
            let answer = start(&mut keeper, retries);
            (outcome_of(told_start(alloc, answer)), disk, keeper)
        }
        Command::Mark => {
            let answer = mark(&mut keeper);
            (outcome_of(told_attempts(alloc, answer)), disk, keeper)
        }
        Command::Abort(retry) => {
            let answer = abort(&mut keeper, retry);
            (outcome_of(told_attempts(alloc, answer)), disk, keeper)
        }
        Command::NeedsCheckpoint => {
            let answer = needs_checkpoint(&mut keeper);
            (outcome_of(told_answer(alloc, answer)), disk, keeper)
        }
        Command::NeedsRollback => {
            let answer = needs_rollback(&mut keeper);
            (outcome_of(told_answer(alloc, answer)), disk, keeper)
        }
        Command::Drill(number) => (make_drill(alloc, number), disk, keeper),
        Command::Past(number, first, count) => {
            play_beside(alloc, number, first, count, disk, keeper, source)
        }
    }
}
