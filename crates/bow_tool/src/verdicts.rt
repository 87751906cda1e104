// How devices that were to commit together ended.
ghost use Rattle.std.specs.Prelude.{◌≡◌, IfOk};
ghost use Rattle.bow_tool.specs.PairLines.{verdict_line, verdict_of};

use crate::lines::line;
use crate::refusals::Refusal;
use bow_pair::Decided;
use bow_units::NoMemory;
use std::alloc::Global;

/// How devices that were to commit together ended.
#[derive(Clone, Copy, Debug, PartialEq, Eq)]
pub(crate) enum Verdict {
    /// All are committed.
    Committed,
    /// This device was not prepared, and none is committed.
    NotPrepared(u32),
    /// A call of this device failed, and none is committed.
    NotCommitted(u32),
    /// The decision was kept, or may be, and a device or the keeper failed.
    Failed(Refusal),
}

impl Verdict {
    /// Its line, with the line feed.
    pub(crate) fn line(&self, alloc: Global) -> Result<Vec<u8>, NoMemory>
        ensures { IfOk result (λ text. text.items ≡ verdict_line self.now) }
    {
        match *self {
            Verdict::Committed => line(alloc, b"committed\n"),
            Verdict::NotPrepared(device) => {
                Ok(format!(in alloc; "not prepared {device}\n")?.into_bytes())
            }
            Verdict::NotCommitted(device) => {
                Ok(format!(in alloc; "not committed {device}\n")?.into_bytes())
            }
            Verdict::Failed(refusal) => Ok(refusal.line(alloc)?.into_bytes()),
        }
    }
}

// What a decision comes to.
pub(crate) fn verdict_of(decided: Decided) -> Verdict
    ensures { result ≡ verdict_of decided }
{
    match decided {
        Decided::Committed => Verdict::Committed,
        Decided::NotCommitted { device } => Verdict::NotCommitted(device),
        Decided::Unfinished { .. } => Verdict::Failed(Refusal::DiskFault),
        Decided::KeeperFault => Verdict::Failed(Refusal::KeeperFault),
    }
}
