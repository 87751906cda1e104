// What holds of a history.
ghost use Rattle.bow_history.specs.Legality.{BeginningIsAt, RunsAreLegal, EndStands};
ghost use Rattle.bow_history.specs.Fits.{OwnBuffersAgree};
ghost use Rattle.bow_history.specs.Complete.{RunsGoInOrder, OverIsEmpty, RunsAreComplete};
ghost use Rattle.bow_history.specs.Ends.{TurnsGoDown, ItemsGoDown};
ghost use Rattle.bow_history.specs.Schedule.{ChosenIsReady};
ghost use Rattle.bow_history.specs.Promises.{LoadedIsSession, TurnsKeepSession, SessionsAreLegal};
ghost use Rattle.bow_history.specs.Cuts.{CutsAreOnTheWay, CutsAreAhead};
ghost use Rattle.bow_history.specs.Prepared.{PreparedIsUntouched};
ghost use Rattle.bow_history.specs.Quiet.{QuietRunsSucceed, EndsLed};
ghost use Rattle.bow_history.specs.SoundSessions.{BeginningIsSound, TurnsKeepSound, RunsKeepSound, HasPlace};
ghost use Rattle.bow_history.specs.SoundSessions.{SomeIsReady};
ghost use Rattle.bow_history.specs.Rows.{MixedRow, MomentsRow};
ghost use Rattle.bow_history.specs.DiskCuts.{LoadedHasCuts, TurnsHaveCuts, CutsOfDisk, CutsOfDiskAreAhead};
ghost use Rattle.bow_history.specs.DiskCuts.{MomentsShift};

use bow_disk::Disk;

/// Small histories on sixteen blocks, worked out: writes of two lanes that overlap, one of which fails.
pub fn rows_law()
    ensures mixed { MixedRow }
    ensures moments { MomentsRow }
{}

/// A device in which no request waits is at the beginning of a journal. From there on, whatever the turns of the
/// lanes, of the worker and of the commands, and whatever the disk replies, the journal is legal, in every phase; and
/// where no request waits at the end, what a cut leaves stands for the state at which the journal ends.
pub fn legal_law()
    ensures beginning { BeginningIsAt }
    ensures runs { RunsAreLegal }
    ensures buffers { OwnBuffersAgree }
    ensures end { EndStands }
{}

/// Over any disk, whatever it replies: a session begins over sound memory with a sound one, and each turn that it may
/// make keeps it so. While a lane has nothing in hand there is a place for its next request; and where a lane has an
/// unanswered request, some actor is ready: a lane, the worker or the commands.
pub fn sound_law()
    ensures beginning { BeginningIsSound }
    ensures turns { TurnsKeepSound }
    ensures runs { RunsKeepSound }
    ensures place { HasPlace }
    ensures ready { SomeIsReady }
{}

/// The journal of a run has each lane's requests in order, and goes section by section, where each lane takes in what
/// is of the present section. Once no lane has an unanswered request none waits, and the journal is complete.
pub fn complete_law()
    ensures order { RunsGoInOrder }
    ensures empty { OverIsEmpty }
    ensures complete { RunsAreComplete }
{}

/// Every session ends, whatever the disk replies: each turn of an actor that is ready lowers one number. Each item
/// lowers another, which tells how many items the journal may still get.
pub fn ends_law()
    ensures turns { TurnsGoDown }
    ensures items { ItemsGoDown }
{}

/// The order of the turns may be drawn from one number: the actor who is chosen is ready, where a lane has an
/// unanswered request.
pub fn schedule_law()
    ensures { ChosenIsReady }
{}

/// Whatever a cut of a run leaves stands for a state midway of a place on the way of its journal; since the moment of
/// an item, of one that has the item.
pub fn cuts_law()
    ensures stand { CutsAreOnTheWay }
    ensures ahead { CutsAreAhead }
{}

/// A run whose journal has a prepare's Done after which no write was answered, and at the end of which no request
/// waits, leaves a checkpoint, if it is in one, in which nothing was touched: so another session may begin there.
pub fn prepared_law()
    ensures { PreparedIsUntouched }
{}

/// Where a journal tells no fault, no call failed; and where none failed, a device that was led at the beginning is led
/// at the end.
pub fn quiet_law()
    ensures succeed { QuietRunsSucceed }
    ensures led { EndsLed }
{}

/// A session whose turns keep the contract that is written here is a run of the machine: each such turn leads from a
/// session to one. And so its journal is legal, from the state for which the device stood when it was loaded.
pub fn session_law()
    ensures loaded { LoadedIsSession }
    ensures turns { TurnsKeepSession }
    ensures legal { SessionsAreLegal }
{}

/// What a disk tells of cuts since a moment of a session that runs over it is on the way of the session's journal,
/// where each turn's call, if it makes one, is all that passes on the disk.
pub fn disk_cuts_law<D: Disk>()
    ensures loaded { LoadedHasCuts D.content D.moment D.left_since }
    ensures turns { TurnsHaveCuts D.content D.moment D.left_since }
    ensures cuts { CutsOfDisk D.content D.moment D.left_since }
    ensures ahead { CutsOfDiskAreAhead D.stated D.content D.moment D.left_since }
    ensures moments { MomentsShift }
{}
