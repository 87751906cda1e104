// A line whose text is fixed.
ghost use Rattle.std.specs.Prelude.{◌≡◌, IfOk};

use bow_units::NoMemory;
use std::alloc::Global;

// The bytes of a text.
pub(crate) fn line(alloc: Global, text: &[u8]) -> Result<Vec<u8>, NoMemory>
    ensures { IfOk result (λ line. line.items ≡ text.now) }
{
    Ok(text.to_vec(alloc)?)
}
