// Playing a script.
ghost use Rattle.std.specs.Prelude.{◌≡◌, ◌+◌, ℕ, ◌≤◌, List, [], slice_index_or, IfOk, IfErr, Some};
ghost use Rattle.std.specs.List.{sum_by};
ghost use Rattle.bow_units.specs.Causes.{Rose};
ghost use Rattle.bow_units.specs.Magics.{IsPlain};
ghost use Rattle.bow_units.specs.Sizes.{IsValid};
ghost use Rattle.bow_disk.specs.Disk.{Content};
ghost use Rattle.bow_guard.specs.Standing.{StandsFor};
ghost use Rattle.bow_core.specs.Openings.{KeepsImage};
ghost use Rattle.bow_script.specs.Scripts.{IsWellFormed, IsWithinLimits};
ghost use Rattle.bow_history.specs.Complete.{IsComplete};
ghost use Rattle.bow_history.specs.DiskCuts.{StandsAheadToo};
ghost use Rattle.bow_history.specs.Promises.{faults_in, held};
ghost use Rattle.bow_session.specs.Sessions.{IsOver, plan_in};
ghost use Rattle.bow_play.specs.Leading.{PlayLeads};
ghost use Rattle.bow_play.specs.Beginning.{HasBegun, HasOpened};
ghost use Rattle.bow_play.specs.Playing.{DiskCause, IsPlay, PlayCause, fault_for};
ghost use Rattle.bow_play.specs.Reading.{taken_from, GaveScript, ScriptCause};

use crate::faults::PlayFault;
use crate::streams::{ReadFault, read_all};
use bow_core::{Core, OpenFault};
use bow_disk::Disk;
use bow_ranges::Ranges;
use bow_script::{Script, ScriptFault, read_script};
use bow_session::Session;
use bow_units::{NoMemory, Source};
use std::alloc::Global;

/// Reads a script from the source, to its end or until more bytes have come than a script may have; opens a device of
/// 16 places on the disk; and plays the script over it, in the order that the number draws. The session that is handed
/// back is over: each request is answered, and its journal tells what was done.
///
/// The journal is complete, whatever the disk. Over a disk that tells its content it is legal from the opening state of
/// the image, in every phase, to one for which the device stands. What a cut since the play began leaves was left
/// before or stands for a state on the journal's way; since the moment of an item, for one that has the item; and now
/// for the last one. Where no call of the disk failed, it is ahead for these too.
///
/// Else the disk is handed back with its image unchanged, and a cut leaves nothing that it might not have left before:
///
/// | Fault | Comes |
/// |---|---|
/// | `SourceFault` | only where a call of the source failed; no call on the disk |
/// | `BadScript(n)` | exactly where the source gave no script, n being its first line at fault; no call on the disk |
/// | `BadGeometry` | exactly where the disk states sizes that no device has |
/// | `DiskFault` | only where the disk's count of faults rose, as the sizes were asked or the device was opened |
/// | `NeedsRestore` | exactly where block 0 begins with a magic |
/// | `NoMemory` | for want of memory, in place of any other, before the first request |
pub fn play<D: Disk, R: Ranges + Drop, S: Source>(
    alloc: Global,
    number: u64,
    disk: D,
    source: &mut S,
) -> Result<Session<D, R>, (PlayFault, D)>
    ensures given { IfOk result (λ s. GaveScript (taken_from S.left S.gave S.ended source.old source.new)
        s.script) }
    ensures sizes { IfOk result (λ s. (D.stated s.core.disk ≡ Some s.core.geometry) × IsValid s.core.geometry) }
    ensures over { IfOk result (λ s. IsOver s) }
    ensures idle { IfOk result (λ s. s.core.memory.requests ≡ []) }
    ensures complete { IfOk result (λ s. IsComplete (plan_in s) s.journal) }
    ensures played { IfOk result (λ s. IsPlay D.stated D.content D.moment D.left_since D.faults number disk s) }
    ensures faults { IfOk result (λ s. held (D.faults disk + sum_by faults_in s.journal) ≤ D.faults s.core.disk) }
    ensures plain { IfOk result (λ s. (c : Content) → D.content disk ≡ Some c → IsPlain (slice_index_or c.now 0 [])) }
    ensures leads { IfOk result (λ s. (c : Content) → D.content disk ≡ Some c
        → PlayLeads D.content D.moment D.left_since (StandsFor s.core.geometry) disk c s) }
    ensures ahead { IfOk result (λ s. (c : Content) → D.content disk ≡ Some c
        → (Rose (D.faults disk) (D.faults s.core.disk) → ⊥)
        → PlayLeads D.content D.moment D.left_since (StandsAheadToo s.core.geometry) disk c s) }
    ensures cause { IfErr result (λ e. PlayCause D.stated D.content D.moment D.faults
        (taken_from S.left S.gave S.ended source.old source.new) (S.faults source.old) (S.faults source.new) disk e.1
        e.0) }
    ensures kept { IfErr result (λ e. KeepsImage D.stated D.content D.moment D.left_since D.faults disk e.1) }
    ensures clock { IfErr result (λ e. (c : Content) → D.content disk ≡ Some c → D.moment e.1 ≤ D.moment disk + 2) }
{
    let mut session = match load(alloc, disk, source) {
        Ok(session) => session,
        Err(refused) => return Err(refused),
    };
    session.finish(number);
    Ok(session)
}

/// Reads a script from the source, as `play` does; opens a device of 16 places on the disk; and loads the script over
/// it. The session that is handed back has made no step, and it has all the memory that it takes to the end of its
/// requests.
///
/// Else the disk is handed back as by `play`, for the same causes.
pub fn load<D: Disk, R: Ranges + Drop, S: Source>(
    alloc: Global,
    disk: D,
    source: &mut S,
) -> Result<Session<D, R>, (PlayFault, D)>
    ensures given { IfOk result (λ s. GaveScript (taken_from S.left S.gave S.ended source.old source.new)
        s.script) }
    ensures begun { IfOk result (λ s. HasBegun D.stated D.content D.moment D.left_since D.faults disk s) }
    ensures cause { IfErr result (λ e. PlayCause D.stated D.content D.moment D.faults
        (taken_from S.left S.gave S.ended source.old source.new) (S.faults source.old) (S.faults source.new) disk e.1
        e.0) }
    ensures kept { IfErr result (λ e. KeepsImage D.stated D.content D.moment D.left_since D.faults disk e.1) }
    ensures clock { IfErr result (λ e. (c : Content) → D.content disk ≡ Some c → D.moment e.1 ≤ D.moment disk + 2) }
{
    let (core, script) = match open(alloc, disk, source) {
        Ok(opened) => opened,
        Err(refused) => return Err(refused),
    };
    match Session::load(alloc, core, script) {
        Ok(session) => Ok(session),
        Err((core, NoMemory)) => Err((PlayFault::NoMemory, core.close())),
    }
}

/// Reads a script from the source, as `play` does, and opens a device of 16 places on the disk. The script is within
/// its limits, and the device has admitted no request.
///
/// Else the disk is handed back as by `play`, for the same causes.
pub fn open<D: Disk, R: Ranges + Drop, S: Source>(
    alloc: Global,
    disk: D,
    source: &mut S,
) -> Result<(Core<D, R>, Script), (PlayFault, D)>
    ensures given { IfOk result (λ r. GaveScript (taken_from S.left S.gave S.ended source.old source.new) r.1) }
    ensures limits { IfOk result (λ r. IsWithinLimits r.1) }
    ensures numbers { IfOk result (λ r. IsWellFormed r.1) }
    ensures opened { IfOk result (λ r. HasOpened D.stated D.content D.moment D.left_since D.faults disk r.0) }
    ensures cause { IfErr result (λ e. PlayCause D.stated D.content D.moment D.faults
        (taken_from S.left S.gave S.ended source.old source.new) (S.faults source.old) (S.faults source.new) disk e.1
        e.0) }
    ensures kept { IfErr result (λ e. KeepsImage D.stated D.content D.moment D.left_since D.faults disk e.1) }
    ensures clock { IfErr result (λ e. (c : Content) → D.content disk ≡ Some c → D.moment e.1 ≤ D.moment disk + 2) }
{
    let script = match take_script(alloc, source) {
        Ok(script) => script,
        Err(fault) => return Err((fault, disk)),
    };
    match Core::open(alloc, disk, 16) {
        Ok(core) => Ok((core, script)),
        Err((fault, disk)) => Err((fault_of(fault), disk)),
    }
}

/// Reads a script from the source, as `play` does. It is within its limits.
///
/// | Fault | Comes |
/// |---|---|
/// | `SourceFault` | only where a call of the source failed |
/// | `BadScript(n)` | exactly where the source gave no script, n being its first line at fault |
/// | `NoMemory` | for want of memory, in place of any other |
///
/// There is no other fault.
pub fn take_script<S: Source>(alloc: Global, source: &mut S) -> Result<Script, PlayFault>
    ensures given { IfOk result (λ script. GaveScript (taken_from S.left S.gave S.ended source.old source.new)
        script) }
    ensures limits { IfOk result (λ script. IsWithinLimits script) }
    ensures numbers { IfOk result (λ script. IsWellFormed script) }
    ensures cause { IfErr result (ScriptCause (taken_from S.left S.gave S.ended source.old source.new)
        (S.faults source.old) (S.faults source.new)) }
{
    let text = match read_all(alloc, source) {
        Ok(text) => text,
        Err(ReadFault::Source) => return Err(PlayFault::SourceFault),
        Err(ReadFault::Long) => return Err(PlayFault::BadScript(0)),
        Err(ReadFault::NoMemory) => return Err(PlayFault::NoMemory),
    };
    match read_script(alloc, &text) {
        Ok(script) => Ok(script),
        Err(ScriptFault::BadScript(line)) => Err(PlayFault::BadScript(line)),
        Err(ScriptFault::NoMemory) => Err(PlayFault::NoMemory),
    }
}

fn fault_of(fault: OpenFault) -> PlayFault
    ensures { result ≡ fault_for fault }
{
    match fault {
        OpenFault::BadGeometry(sizes) => PlayFault::BadGeometry(sizes),
        OpenFault::NeedsRestore => PlayFault::NeedsRestore,
        OpenFault::DiskFault => PlayFault::DiskFault,
        OpenFault::NoMemory => PlayFault::NoMemory,
    }
}
