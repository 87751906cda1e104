// The requests of a script, each with a payload of its own.
ghost use Rattle.std.specs.Prelude.{◌≡◌, IfOk, replicate};
ghost use Rattle.bow_history.specs.Sessions.{IsFor};
ghost use Rattle.bow_machine.specs.MemoryIsSound.{IsAdmissible};
ghost use Rattle.bow_script.specs.Grammar.{IsFitting};
ghost use Rattle.bow_session.specs.Requests.{request_of};
ghost use Rattle.bow_units.specs.Sizes.{IsValid};
ghost use Rattle.bow_receipts.specs.Asking.{blank};

use bow_script::Line;
use bow_session::{begun_with, extent, patterned};
use bow_units::{Geometry, NoMemory, Op, Payload};
use std::alloc::{AllocError, Global};

// The request of a line, for a device of this geometry: a read into zeros; a write of the patterns of its blocks, or of
// zeros where one of them is on no device, or of its bytes and then zeros.
pub(crate) fn op_of(alloc: Global, line: &Line, geometry: Geometry) -> Result<Op, NoMemory>
    requires numbers { IsFitting line.now }
    requires valid { IsValid geometry }
    ensures whole { IfOk result (λ op. IsAdmissible geometry op) }
    ensures for_it { IfOk result (λ op. IsFor geometry (request_of geometry.block_size line.now) (blank op)) }
{
    let size = geometry.block_size;
    match line {
        Line::Write { first, count, seed } => {
            let buffer = zeros(alloc, *count as usize * size as usize)?;
            let payload = patterned(buffer, size, *first, *count, *seed);
            Ok(Op::Write(extent(*first, *count), payload))
        }
        Line::WriteHex { first, bytes } => {
            let payload = begun_with(zeros(alloc, size as usize)?, bytes.as_slice());
            Ok(Op::Write(extent(*first, 1), payload))
        }
        Line::Read { first, count } => {
            let payload = zeros(alloc, *count as usize * size as usize)?;
            Ok(Op::Read(extent(*first, *count), payload))
        }
        Line::Discard { first, count } => Ok(Op::Discard(extent(*first, *count))),
        Line::Flush => Ok(Op::Flush),
        Line::Prepare => Ok(Op::Prepare),
        Line::Commit => Ok(Op::Commit),
    }
}

// So many bytes of zeros.
fn zeros(alloc: Global, len: usize) -> Result<Payload, AllocError>
    ensures { IfOk result (λ payload. payload ≡ replicate len 0) }
{
    Ok(Payload::new(vec![in alloc; 0u8; len]?))
}
