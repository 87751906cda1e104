// What holds of the device from the checkpoint on, whatever code drives it.
ghost use Rattle.bow_guard.specs.Laws.{CutsKeep, KeptAtSafePlaces, SafeIsNotLoose, LooseWrites, LooseKinds};
ghost use Rattle.bow_guard.specs.Laws.{FlushKeeps, LastFlush, CopiesLogged, LinkLogged, MoveLogged, LogRewritten};
ghost use Rattle.bow_guard.specs.Laws.{CutsStand, WritesInPlace, WritesToFree, ReadsInPlace, FlushesInPlace};
ghost use Rattle.bow_guard.specs.Laws.{DiscardsInPlace, PrepareArms, FirstLogGiven, ReadsArming, PrepareEnds};
ghost use Rattle.bow_guard.specs.Laws.{CommitDecides, DecidesAgain, FlushesDeciding, ReadsDeciding, CommitEnds};
ghost use Rattle.bow_guard.specs.Laws.{Together, CutsAreAhead, CrashesAreCuts, WritesAreGiven, WritesArePut};
ghost use Rattle.bow_guard.specs.Laws.{FlushesAreDone};

/// A cut of a guarded device leaves an image that is sound and keeps the checkpoint. Behind whichever log it leaves all
/// is kept at safe places, and none of these may be written in place.
pub fn guard_law()
    ensures cuts { CutsKeep }
    ensures safe { KeptAtSafePlaces }
    ensures not_loose { SafeIsNotLoose }
{}

/// What requests do while the device is guarded: writes in place, reads, flushes and discards keep the guard, done or
/// failed.
pub fn request_law()
    ensures writes { LooseWrites }
    ensures kinds { LooseKinds }
    ensures flush { FlushKeeps }
{}

/// What the worker's batches do: a log that is given, done or failed, keeps the guard, and its last flush makes it the
/// durable one. Their copies are writes in place.
pub fn batch_law()
    ensures copies { CopiesLogged }
    ensures link { LinkLogged }
    ensures moves { MoveLogged }
    ensures rewrites { LogRewritten }
    ensures last_flush { LastFlush }
{}

/// In every phase, whatever a cut leaves stands for the flat state.
pub fn phase_law()
    ensures { CutsStand }
{}

/// What requests do in trim and once committed.
pub fn in_place_law()
    ensures writes { WritesInPlace }
    ensures reads { ReadsInPlace }
    ensures flush { FlushesInPlace }
    ensures discards { DiscardsInPlace }
{}

/// The acts of a prepare, from its copies of block 0 on, each done or failed.
pub fn prepare_law()
    ensures copies { WritesToFree }
    ensures arms { PrepareArms }
    ensures first_log { FirstLogGiven }
    ensures reads { ReadsArming }
    ensures ends { PrepareEnds }
{}

/// The acts of a commit, from its deciding write on, each done or failed; a commit in deciding makes them all again.
pub fn commit_law()
    ensures decides { CommitDecides }
    ensures again { DecidesAgain }
    ensures flush { FlushesDeciding }
    ensures reads { ReadsDeciding }
    ensures ends { CommitEnds }
{}

/// Before the decision the checkpoint is held, whatever a cut leaves.
pub fn together_law()
    ensures { Together }
{}

/// Once a log's current block 0 is put into block 0, what a cut left stands as after a commit.
pub fn ahead_law()
    ensures { CutsAreAhead }
{}

/// The lists that a disk tells, as functions of a block's number: what the laws say of those holds of the disk.
pub fn disk_law()
    ensures crashes { CrashesAreCuts }
    ensures writes { WritesAreGiven }
    ensures put { WritesArePut }
    ensures flush { FlushesAreDone }
{}
