// What is promised.
ghost use Rattle.bow_promise.specs.Played.{PlaysArePromised};
ghost use Rattle.bow_promise.specs.Space.{PlaysFindNoSpaceTruly, SessionsFindNoSpaceTruly};
ghost use Rattle.bow_promise.specs.Promises.{BootsAreReruns, CheckpointsStay, CommitsStay, CutsArePromised, CutsEndWell};

use bow_disk::Disk;

/// Play a script over a device, and cut it anywhere; then restorations and boots, as many as may be, each cut anywhere;
/// then one that ends well. It does nothing.
///
/// - `promised`: the law above all. As long as the deciding write of a commit has not reached the disk, block 0 holds a
///   log, and the first restoration that ends well has each block that was in use at the prepare as it might have been
///   read right before the prepare's answer. From the commit's answer on, and before a prepare was begun, block 0 holds
///   none, nothing is to restore, and each block that was flushed and not changed since is as it might have been read
///   at that flush.
/// - `ends`: by the phase of the state that was left, the checkpoint is held, or there is nothing to restore.
/// - `checkpoint`: from a prepare's answer on, the checkpoint is what the blocks held then.
/// - `committed`: from a commit's answer on there is nothing to restore, and each block has a content that a cut may
///   leave of it.
/// - `boots`: restorations and boots, cut or not, leave what restorations leave that were cut.
pub fn promise_law()
    ensures promised { CutsArePromised }
    ensures ends { CutsEndWell }
    ensures checkpoint { CheckpointsStay }
    ensures committed { CommitsStay }
    ensures boots { BootsAreReruns }
{}

/// A session finds no space only where there is none: over any disk, whatever it replies, where an item tells of no
/// space the device had nothing in hand at that turn, and no block was free for a write, or no two for a prepare.
pub fn space_law<D: Disk>()
    ensures sessions { SessionsFindNoSpaceTruly }
    ensures plays { PlaysFindNoSpaceTruly D.stated D.content D.moment D.left_since D.faults }
{}

/// What `play` leaves when it is cut, over a disk that was settled before it, is what the promises speak of: a cut of
/// the play that its session's journal tells, since the moment of an item one that has the item, and at the end one
/// that has all.
pub fn cut_law<D: Disk>()
    ensures { PlaysArePromised D.stated D.content D.moment D.left_since }
{}
