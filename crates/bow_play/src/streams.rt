// All that a source gives.
ghost use Rattle.std.specs.Prelude.{◌≡◌, ◌≤◌, ℕ, length, IfOk};
ghost use Rattle.bow_play.specs.Reading.{taken_from, WasTaken, IsReadOut, ReadCause};

use bow_units::Source;
use std::alloc::Global;

/// Why the bytes of a source were not all read.
#[derive(Clone, Copy, Debug, PartialEq, Eq)]
pub(crate) enum ReadFault {
    /// A call of the source failed.
    Source,
    /// More bytes have come than a script may have.
    Long,
    /// There was no memory.
    NoMemory,
}

// One byte more than a script's text may have.
const LIMIT: usize = 4_194_305;

/// Reads a source to its end, or until 4,194,305 bytes have come.
pub(crate) fn read_all<S: Source>(alloc: Global, source: &mut S) -> Result<Vec<u8>, ReadFault>
    ensures bytes { IfOk result (λ v. let t = taken_from S.left S.gave S.ended source.old source.new in
        WasTaken t v.items × IsReadOut t) }
    ensures few { IfOk result (λ v. length v.items ≤ 4194304) }
    ensures faults { S.faults source.old ≤ S.faults source.new }
    ensures cause { ReadCause (taken_from S.left S.gave S.ended source.old source.new) (S.faults source.old)
        (S.faults source.new) result }
{
    let mut bytes = Vec::new(alloc);
    let mut buffer = [0u8; 4096];
    while bytes.len() < LIMIT {
        let room = buffer.len().min(LIMIT - bytes.len());
        let Ok(count) = source.take(&mut buffer[..room]) else {
            return Err(ReadFault::Source);
        };
        if count == 0 {
            return Ok(bytes);
        }
        if bytes.extend_from_slice(&buffer[..count]).is_err() {
            return Err(ReadFault::NoMemory);
        }
    }
    Err(ReadFault::Long)
}
