// What holds of the machine.
ghost use Rattle.bow_machine.specs.Laws.{StepKeeps, CutStands, OpeningStands, AdmitStands};
ghost use Rattle.bow_machine.specs.Consequences.{StepCuts, TrimmedIsKept, NoneIsPicked, LiveKeeps};
ghost use Rattle.bow_machine.specs.Ahead.{OpeningIsLed, AdmitIsLed, LedKeeps, LedIsAhead, BytesAreAhead, AheadIsLed};
ghost use Rattle.bow_machine.specs.Ahead.{AheadKeeps};
ghost use Rattle.bow_machine.specs.MemoryLaws.{OpeningIsSound, AdmitKeepsSound, StepKeepsSound, TakenIsSound};
ghost use Rattle.bow_machine.specs.MemoryLaws.{WrittenLogIsSound, ReadyIsTable, IdleChangesNothing, CallsAreOnDevice};
ghost use Rattle.bow_machine.specs.MemoryLaws.{FaultsAreTold, RoomIsExact, NoSpaceIsExact, PrepareSpaceIsExact};
ghost use Rattle.bow_machine.specs.MemoryLaws.{CoveredStays};
ghost use Rattle.bow_machine.specs.Ends.{StepsGoDown, StepsAreFew, EveryRunEnds, SomeTurnIsReady};
ghost use Rattle.bow_machine.specs.Ties.{SavedIsNext, TouchedIsLeft, CoveredStaysTouched, LogsGoOn, ArmingIsUntouched};
ghost use Rattle.bow_machine.specs.Ties.{CheckpointFollows, LogStays};
ghost use Rattle.bow_machine.specs.Orders.{DiskByReply, OnlyReads, ReadsBeforeDecides, DecidingIsFlushed};
ghost use Rattle.bow_machine.specs.Orders.{ReadsBeforeArms, DecidingStaysLed};
ghost use Rattle.bow_machine.specs.Told.{StepsTellSo, ActsTellSo};
ghost use Rattle.bow_machine.specs.Deeds.{DeedsGoOn};
ghost use Rattle.bow_machine.specs.Blocks.{BlocksReply};
ghost use Rattle.bow_machine.specs.Past.{OlderLogsStay, ReadersFollow, ReadsBeside};
ghost use Rattle.bow_machine.specs.Forward.{CommitHasFlushed, FlushedIsAhead, FlushGoesForward, AdmitGoesForward};
ghost use Rattle.bow_machine.specs.Forward.{CommandGoesForward, ForwardIsForwardable, SoundAreLed};
ghost use Rattle.bow_machine.specs.Forward.{CommandIsForwardable};
ghost use Rattle.bow_machine.specs.Shown.{StatusIsShown};
ghost use Rattle.bow_machine.specs.Rows.{PreparedRow, CallsRow, NoSpaceRow, MovedData, MovedLog, BackupsRow};
ghost use Rattle.bow_machine.specs.Rows.{BatchCalls, ReclaimedLog, CommitCalls, LinkedLog, FailedLog};

/// Small runs on sixteen blocks, worked out: what a prepare leaves; the order of the disk calls up to the first write
/// of a block; which writes find no space; how the current block 0 and a backup give way to writes of the blocks in
/// which they lie; a batch of several blocks; a discard that gives a block back; a commit; a full log that a new one
/// names; and a write of the log that fails.
pub fn rows_law()
    ensures prepared { PreparedRow }
    ensures calls { CallsRow }
    ensures no_space { NoSpaceRow }
    ensures moved_data { MovedData }
    ensures moved_log { MovedLog }
    ensures backups { BackupsRow }
    ensures batch { BatchCalls }
    ensures reclaimed { ReclaimedLog }
    ensures commit { CommitCalls }
    ensures linked { LinkedLog }
    ensures failed_log { FailedLog }
{}

/// Each step, whatever the disk replies, leads from a machine that stands for a flat state to one that stands for that
/// state changed by the step's events; and the events may be. What a cut leaves before, during or after the step's call
/// stands for the state before the step, or for the one after it.
pub fn step_law()
    ensures keeps { StepKeeps }
    ensures cuts { StepCuts }
{}

/// Whatever a cut leaves of a machine that stands for a flat state stands for it too.
pub fn cut_law()
    ensures { CutStands }
{}

/// Over any disk a turn makes a step exactly where the table of readiness says so; one that is not ready makes no call
/// and changes nothing.
pub fn ready_law()
    ensures table { ReadyIsTable }
    ensures idle { IdleChangesNothing }
{}

/// The room is exact: how many blocks are free follows from how many were at the prepare, the sequence of the log, and
/// the blocks that were touched or are reserved. The worker finds no space for a write exactly where it has nothing in
/// hand, the write is its head, the log is durable and no block is free; a prepare finds none exactly where it is
/// taken in Trim and fewer than two blocks are free. All this over any disk; how many were free at the prepare is what
/// the flat state says.
pub fn space_law()
    ensures room { RoomIsExact }
    ensures write { NoSpaceIsExact }
    ensures prepare { PrepareSpaceIsExact }
    ensures trimmed { TrimmedIsKept }
{}

/// A device that is opened on a settled disk without a magic in block 0 stands for the opening state of its image.
pub fn opening_law()
    ensures { OpeningStands }
{}

/// A request that is taken in changes nothing but that it waits.
pub fn admit_law()
    ensures { AdmitStands }
{}

/// A discard in the checkpoint gives back no block that a waiting write covers.
pub fn discard_law()
    ensures { CoveredStays }
{}

/// In the checkpoint, whichever log a cut leaves in block 0, no place that counts for it is a block that the batch in
/// hand has picked and whose log is not yet given.
pub fn picks_law()
    ensures { NoneIsPicked }
{}

/// In the checkpoint, what the disk holds keeps the checkpoint, once the log in memory is put into block 0: so it can
/// be read beside running writers. The log in memory with its older ones is what a reader follows; a step leaves the
/// older ones as they are, and may only add the log before; and a read beside the device, failed or not, keeps all
/// that it stands for.
pub fn live_law()
    ensures keeps { LiveKeeps }
    ensures older { OlderLogsStay }
    ensures follow { ReadersFollow }
    ensures beside { ReadsBeside }
{}

/// As long as no call on the disk has failed, whatever a cut leaves is ahead: once what its log's current block 0
/// holds is put into block 0, it stands as after a commit. So a checkpoint can be given up from the image alone. It is
/// so for each flat state for which the device stands and whatever a cut leaves is ahead. Once all was flushed, as by
/// the first act of a commit, whatever a cut leaves stands for the state flushed and is ahead of it. From a flush that
/// was done in Checkpoint to the end of a commit, with no turns but those of the commands between, whatever a cut
/// leaves can be given up forward, even where the last call failed.
pub fn ahead_law()
    ensures opening { OpeningIsLed }
    ensures admit { AdmitIsLed }
    ensures keeps { LedKeeps }
    ensures ahead { LedIsAhead }
    ensures bytes { BytesAreAhead }
    ensures every { AheadIsLed }
    ensures every_keeps { AheadKeeps }
    ensures commit { CommitHasFlushed }
    ensures flushed { FlushedIsAhead }
    ensures sound { SoundAreLed }
    ensures flush { FlushGoesForward }
    ensures waits { AdmitGoesForward }
    ensures commands { CommandGoesForward }
    ensures forward { ForwardIsForwardable }
    ensures last { CommandIsForwardable }
{}

/// Memory is sound when the device is opened, stays so when a request is taken in, and after each step of any turn by
/// any reply that its call can have, whatever the disk holds. What a turn forms or takes in hand is sound too, and so
/// is each log that a batch writes, with the change that precedes the write.
pub fn sound_law()
    ensures opening { OpeningIsSound }
    ensures admit { AdmitKeepsSound }
    ensures step { StepKeepsSound }
    ensures taken { TakenIsSound }
    ensures written { WrittenLogIsSound }
{}

/// Over sound memory each call is of a block on the device and writes one block's length; and a step whose call failed
/// answers the request for which it was made with a fault, and no other step tells of one.
pub fn calls_law()
    ensures on_device { CallsAreOnDevice }
    ensures faults { FaultsAreTold }
{}

/// Every run ends: each step of a turn that is ready lowers one number, whatever the disk replies, so a run has no more
/// steps than that number, which is below one that the sizes give; and where a request waits some turn is ready.
pub fn ends_law()
    ensures down { StepsGoDown }
    ensures few { StepsAreFew }
    ensures ends { EveryRunEnds }
    ensures ready { SomeTurnIsReady }
{}

/// A block becomes saved only as a next block of the write for which the batch in hand was formed, which still waits,
/// and changed or saved only as one that is left to do of a write that waits; and it stays so as long as a waiting
/// write covers it. The log's sequence rises only where that log is full, and a step makes one entry at most, where
/// some block becomes saved. A step leads to the checkpoint only from there, or from Arming; before it begins no block
/// is changed or saved. Within it a step changes the log only where a write waits.
pub fn ties_law()
    ensures saved { SavedIsNext }
    ensures touched { TouchedIsLeft }
    ensures covered { CoveredStaysTouched }
    ensures logs { LogsGoOn }
    ensures arming { ArmingIsUntouched }
    ensures phases { CheckpointFollows }
    ensures log { LogStays }
{}

/// Memory and what is told depend on what the disk holds by the reply alone. A disk that holds blocks gives such
/// replies as its calls can have, and holds blocks after each: so over it memory stays sound beside what the machine
/// stands for.
pub fn reply_law()
    ensures same { DiskByReply }
    ensures blocks { BlocksReply }
{}

/// The machine decides and arms at an act, a journal at the command's answer, and reads may come between: each such
/// read might have come before. After the arming the state is then the same; after the decision it is the same but
/// flushed, and in Deciding a machine that stands for a state, or is led for it, is so for it flushed.
pub fn order_law()
    ensures reads { OnlyReads }
    ensures arms { ReadsBeforeArms }
    ensures decides { ReadsBeforeDecides }
    ensures flushed { DecidingIsFlushed }
    ensures led { DecidingStaysLed }
{}

/// For each thing that a step tells: its row, and its events; a prepare arms and a commit decides at one act each. What
/// a command in hand has done before its answer tells it goes on from step to step: nothing but a command changes it,
/// and nothing but reads comes beside it.
pub fn told_law()
    ensures rows { StepsTellSo }
    ensures acts { ActsTellSo }
    ensures deeds { DeedsGoOn }
{}

/// What is shown of sound memory: the phase, the number of free blocks, and the sequence and the entries of the log in
/// memory. The numbers fit; they are 0 where there is no log, and none is free once all is committed.
pub fn status_law()
    ensures { StatusIsShown }
{}
