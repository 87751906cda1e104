// What holds of the checkpoint beside running writers, whatever reads it.
ghost use Rattle.bow_past.specs.Reach.{LiveIsSound, ReachesTheCheckpoint};
ghost use Rattle.bow_past.specs.Turns.{TurnsKeepAgreement, TurnsKeepStanding};

use bow_disk::Disk;

/// In the checkpoint, the disk's image with the log in memory in block 0 is sound with that log and the older ones
/// behind it; and each used block has at its place by those logs what it held when the checkpoint was taken.
pub fn past_law()
    ensures sound { LiveIsSound }
    ensures reach { ReachesTheCheckpoint }
{}

/// A step of a session from the checkpoint to the checkpoint changes no older log, and may only add one; and before and
/// after the checkpoint a reader has nothing to lean on. So a reader that agrees with a session does so after each turn
/// of it. Such a turn leads to a session whose device stands for a flat state again; and a step of a reader keeps all
/// that it stands for.
pub fn agreement_law<D: Disk>()
    ensures agreement { TurnsKeepAgreement D.stated D.content D.moment D.left_since D.faults }
    ensures standing { TurnsKeepStanding D.stated D.content D.moment D.left_since D.faults }
{}
