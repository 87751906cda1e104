// What boots of several devices, cut and begun again, make of them, and of a decision before.
ghost use Rattle.bow_pair.specs.BootLaws.{BootsSettle, CutsStayAgreed};
ghost use Rattle.bow_pair.specs.Laws.{DecisionsSettle, MembersTakePart};
ghost use Rattle.bow_pair.specs.PairLaws.{PairsEndTogether, PreparedRollBack, RunsRollBack};
ghost use Rattle.bow_pair.specs.SessionLaws.{SessionsAreComplete, SessionsCountFaults, SessionsGoLegally, SessionsLead, SessionsPrepare, SessionsTakePart};

use bow_disk::Disk;

/// A law on boots of several devices, of which each has a checkpoint. It does nothing.
///
/// - `agreed`: whatever agrees on committing, or on rolling back, agrees on the same after any boots that were cut.
/// - `settles`: a boot that ends well, however often one was cut before, leaves each device with its committed data
///   where the devices and the text agreed on that, and else each with its checkpoint in place; it keeps no text.
pub fn pair_boots_law()
    ensures agreed { CutsStayAgreed }
    ensures settles { BootsSettle }
{}

/// What the sessions of several devices come to, of each device. It does nothing.
///
/// - `complete`: what a session leaves is of its script, and its journal is complete.
/// - `legal`: whatever failed, its journal is legal from the state for which the device stood, and where it leads, the
///   device stands.
/// - `faults`: the disk's count of faults rose by at least the number of items that tell one, or is at its last value.
/// - `lead`: one that told no fault leads on from a state to another, and its journal is legal on the way.
/// - `take_part`: the device takes part in a decision with that state, flushed.
/// - `prepares`: a first session that told no fault, over a device that stood for a state in which nothing was prepared
///   yet, ends with its prepare; and that was answered Done, or fewer than two blocks were free as it was asked.
pub fn pair_sessions_law<D: Disk>()
    ensures complete { SessionsAreComplete D.stated D.content D.moment D.left_since D.faults }
    ensures legal { SessionsGoLegally D.stated D.content D.moment D.left_since D.faults }
    ensures faults { SessionsCountFaults D.stated D.content D.moment D.left_since D.faults }
    ensures lead { SessionsLead D.stated D.content D.moment D.left_since D.faults }
    ensures take_part { SessionsTakePart D.content }
    ensures prepares { SessionsPrepare D.stated D.content D.moment D.left_since D.faults }
{}

/// Devices that are opened on several disks, prepared and run, as `Pair` does it, and decided over; cut at the end of
/// one of these calls, and then boots, as often as may be, each cut anywhere: what the first boot that ends well leaves
/// of all of them. No text is kept then. It does nothing.
///
/// - `prepared`: cut once all are prepared, each has its checkpoint in place, which is what its first journal says.
/// - `ran`: cut once they have run, whether clean or with a fault, each has that same checkpoint in place.
/// - `decided`: where they have run clean, all have their committed data, or all have their checkpoint. Before the
///   decision it is the checkpoint; once it is decided, what the answer says, as in `pair_law`. What is committed, and
///   what was saved, is what the journals of both sessions say, the second from where the first one leads.
pub fn pair_runs_law<D: Disk>()
    ensures prepared { PreparedRollBack D.stated D.content D.moment D.left_since D.faults }
    ensures ran { RunsRollBack D.stated D.content D.moment D.left_since D.faults }
    ensures decided { PairsEndTogether D.stated D.content D.moment D.left_since D.faults }
{}

/// Decide over several devices, each in its checkpoint, cut anywhere, and then cut boots as often as may be, each
/// anywhere: the first boot that ends well leaves all devices with their committed data, or all with their checkpoint.
/// Where the decision was answered `Committed` or `Unfinished` it is the first; where `NotCommitted`, the second.
pub fn pair_law<D: Disk>()
    ensures members { MembersTakePart D.content }
    ensures settles { DecisionsSettle }
{}
