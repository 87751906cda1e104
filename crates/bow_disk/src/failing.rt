// How a call of a disk in memory fails.
ghost use Rattle.std.specs.Prelude.{◌≡◌, ◌<◌, ◌^◌};
ghost use Rattle.bow_disk.specs.Memory.{failure_after};

/// What a call of a disk in memory leaves that fails.
#[derive(Clone, Copy, Debug, PartialEq, Eq)]
pub enum FailMode {
    /// Nothing changes but the counts of calls and faults.
    Lost,
    /// A write has its effect all the same, and its value is a candidate. A read or a flush changes nothing but the
    /// counts.
    Kept,
}

// How the call after so many fails, where it fails. The latest listing decides.
pub(crate) fn failure_of(failing: &[(u64, FailMode)], stop: u64, calls: u64) -> Option<FailMode>
    ensures { result ≡ failure_after failing.now stop calls }
{
    if stop <= calls {
        return Some(FailMode::Lost);
    }
    let call = calls + 1;
    let mut mode = None;
    for &(number, listed) in failing {
        if number == call {
            mode = Some(listed);
        }
    }
    mode
}
