// What holds of a session's run.
ghost use Rattle.bow_session.specs.Cuts.{LoadedHasCutsOfRun, OverIsComplete, OverIsIdle, RunsLead, RunsLeadAhead};

use bow_disk::Disk;

/// Where the run of a session leads. Its cuts are those of its run from its loading on; where its disk told its content
/// then, the journal is legal from each state for which the device stood, what cuts leave stands for a state on its
/// way, since the moment of an item for one that has the item, and where no request waits for the last one; where no
/// call failed it is ahead for these too. Over any disk a session that is over has a complete journal, and no request
/// waits.
pub fn run_law<D: Disk>()
    ensures loaded { LoadedHasCutsOfRun D.stated D.content D.moment D.left_since }
    ensures leads { RunsLead D.content D.moment D.left_since }
    ensures ahead { RunsLeadAhead D.stated D.content D.moment D.left_since D.faults }
    ensures complete { OverIsComplete D.stated D.content D.faults }
    ensures idle { OverIsIdle D.stated D.content D.faults }
{}
