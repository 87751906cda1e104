// The top call over several devices.
ghost use Rattle.std.specs.Prelude.{◌≡◌, ◌≤◌, IfErr, IfOk, length};
ghost use Rattle.bow_tool.specs.Outside.{disk_view, keeper_view, source_view};
ghost use Rattle.bow_tool.specs.PairCalls.{pair_call_of};
ghost use Rattle.bow_tool.specs.Commands.{TellsOf, WordsCause};
ghost use Rattle.bow_tool.specs.PairCommands.{AsksPairOn, IsPairOutcome, TellsPairWords, images_in, pair_meaning};

use crate::outcomes::{Outcome, outcome_of};
use crate::pair_boots::boot_pair;
use crate::pair_plays::play_pair;
use crate::refusals::Refusal;
use crate::tools::{put_outcome, put_refusal, refusal_of};
use bow_chain::fault_law;
use bow_disk::Disk;
use bow_units::{Sink, Source};
use bow_words::{PairCommand, pair_words_law, read_pair_words};
use std::alloc::Global;
use vold_meta::Keeper;

/// How a call of the program over several devices ended: its status, and the disks, in their order, and the keeper as
/// they are left.
#[derive(Drop)]
pub struct PairEnded<D, K> {
    pub status: u8,
    pub disks: Vec<D>,
    pub keeper: K,
}

/// Does what the words ask for over several devices that commit together or roll back, and puts what it tells into the
/// sink. The words are read by `read_pair_words`; device 0 is on the first disk. The keeper keeps the decision: no
/// text, or the six bytes `commit`.
///
/// `Pair` asks the source, the keeper, and the disks one after the other. At status 0 the sink has taken, of each
/// device in order, `device D` and the transcripts of its two sessions, and then `committed`, `not prepared D` or
/// `not committed D`. It plays the script by `Pair::prepare`, `Pair::run` and `Pair::decide`: each device the requests
/// of its lanes in the first section, and then a prepare; the other sections; and where no device failed, all are
/// committed together. `not prepared D` names the first device whose prepare was not answered `Done` or of which a call
/// failed, and then nothing more was played; `not committed D` the first of which a call failed later on, before the
/// decision was kept.
///
/// Of each such play it is promised that the transcripts are complete and their journals legal, the second from where
/// the first led; that each disk's count of faults rose by at least the faults that they tell; that devices which were
/// all prepared, wherever they are cut, and then booted until a boot ends well, all have their checkpoint, or all their
/// committed data, as the last line says; and that this is `committed` where no call fails and each prepare finds two
/// free blocks.
///
/// `PairBoot` asks the keeper, the sizes of all disks, the disks, and the keeper. At status 0 the sink has taken
/// `forwarded`, `rolled back` or `plain`. Whatever a cut leaves of the two, and however often a boot is cut, the first
/// `PairBoot` that ends well leaves all devices with their checkpoint, or all with their committed data, by whether the
/// decision was kept.
///
/// | Status | Line | Comes |
/// |---|---|---|
/// | 2 | `bad words` | exactly where the words ask for neither, on as many images as there are disks |
/// | 4 | `source fault` | only where a call of the source failed; no disk was asked, nor the keeper |
/// | 3 | `bad script at line N` | as of one device; and 0 where it prepares, commits, or has 65536 requests |
/// | 7 | `keeper fault` | only where a call of the keeper failed; with the decision, behind the transcripts |
/// | 8 | `needs restore` | exactly where `Pair` finds a text kept, or a magic in block 0 of a device |
/// | 10 | `bad attempts` | exactly where `PairBoot` finds a text that is no decision; no disk was asked |
/// | 13 | `bad geometry B N` | exactly where the first disk whose sizes no device has states these |
/// | 6 | `disk fault` | only where a call of a disk failed; with the decision, behind the transcripts |
/// | 9 | `bad chain: ..` | exactly where `PairBoot` restores, and the first device that it can't has this fault |
/// | 9 | `bad header: ..` | exactly where `PairBoot` goes forward, and the first device that it can't has this fault |
/// | 5 | a front of any text | only where a call of the sink failed, or took nothing; in place of any other |
/// | 11 | `no memory` | for want of memory, in place of any other |
///
/// Where nothing outside stands in the way and no call fails, the status is 0 or 11.
///
/// Condition: 2 to 8 disks.
pub fn pair_tool<D: Disk + Drop, K: Keeper, S: Source, W: Sink>(
    alloc: Global,
    words: &[String],
    disks: Vec<D>,
    keeper: K,
    source: &mut S,
    sink: &mut W,
) -> PairEnded<D, K>
    requires some { 2 ≤ length disks.items }
    requires few { length disks.items ≤ 8 }
    ensures { let call = pair_call_of (source_view S.left S.gave S.ended S.faults)
        (disk_view D.stated D.content D.moment D.left_since D.faults)
        (keeper_view K.kept K.moment K.left_since K.faults) source.old source.new disks.items result.disks.items keeper
        result.keeper in TellsPairWords (length disks.items) words.now call (W.contents sink.old) (W.contents sink.new)
        (W.faults sink.old) (W.faults sink.new) result.status }
{
    pair_words_law();
    match asked(alloc, words, disks.len()) {
        Ok(command) => serve_pair(alloc, command, disks, keeper, source, sink),
        Err(refusal) => {
            let status = put_refusal(alloc, sink, refusal);
            PairEnded {
                status,
                disks,
                keeper,
            }
        }
    }
}

// The command that the words ask for, on so many images.
fn asked(alloc: Global, words: &[String], count: usize) -> Result<PairCommand, Refusal>
    ensures ok { IfOk result (AsksPairOn count words.now) }
    ensures cause { IfErr result (WordsCause (AsksPairOn count words.now)) }
{
    match read_pair_words(alloc, words) {
        Ok(command) if images_in(command) as usize == count => Ok(command),
        Ok(_) => {
            pair_words_law();
            Err(Refusal::BadWords)
        }
        Err(fault) => Err(refusal_of(fault)),
    }
}

// How many images a command asks for.
fn images_in(command: PairCommand) -> u32
    ensures { result ≡ images_in command }
{
    match command {
        PairCommand::Pair { images, .. } => images,
        PairCommand::PairBoot { images } => images,
    }
}

// Does what a command asks for, and puts what it tells into the sink.
fn serve_pair<D: Disk + Drop, K: Keeper, S: Source, W: Sink>(
    alloc: Global,
    command: PairCommand,
    disks: Vec<D>,
    keeper: K,
    source: &mut S,
    sink: &mut W,
) -> PairEnded<D, K>
    requires some { 2 ≤ length disks.items }
    requires few { length disks.items ≤ 8 }
    ensures { let call = pair_call_of (source_view S.left S.gave S.ended S.faults)
        (disk_view D.stated D.content D.moment D.left_since D.faults)
        (keeper_view K.kept K.moment K.left_since K.faults) source.old source.new disks.items result.disks.items keeper
        result.keeper in TellsOf (pair_meaning call) command (W.contents sink.old) (W.contents sink.new) (W.faults
        sink.old) (W.faults sink.new) result.status }
{
    let (outcome, disks, keeper) = obey_pair(alloc, command, disks, keeper, source);
    fault_law();
    let status = put_outcome(alloc, sink, outcome);
    PairEnded {
        status,
        disks,
        keeper,
    }
}

// Does what a command asks for, and gives the text to put.
fn obey_pair<D: Disk + Drop, K: Keeper, S: Source>(
    alloc: Global,
    command: PairCommand,
    mut disks: Vec<D>,
    mut keeper: K,
    source: &mut S,
) -> (Outcome, Vec<D>, K)
    requires some { 2 ≤ length disks.items }
    requires few { length disks.items ≤ 8 }
    ensures { let call = pair_call_of (source_view S.left S.gave S.ended S.faults)
        (disk_view D.stated D.content D.moment D.left_since D.faults)
        (keeper_view K.kept K.moment K.left_since K.faults) source.old source.new disks.items result.1.items keeper
        result.2 in IsPairOutcome command call result.0 }
{
    match command {
        PairCommand::Pair { number, .. } => play_pair(alloc, number, disks, keeper, source),
        PairCommand::PairBoot { .. } => {
            let answer = boot_pair(alloc, &mut disks, &mut keeper);
            (outcome_of(answer), disks, keeper)
        }
    }
}
