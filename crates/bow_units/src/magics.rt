// The two numbers with which block 0 begins while it holds a log.
ghost use Rattle.std.specs.Prelude.{◌≤◌, ◌↔◌, IsTrue, length};
ghost use Rattle.bow_units.specs.Magics.{HasMagic};

/// The number that the first four bytes of a log spell, low byte first.
pub const LOG_MAGIC: u32 = 0x0057_4F42;

/// The number that the first four bytes of a log under restoration spell, low byte first.
pub const RESTORING_MAGIC: u32 = 0x0042_4F57;

/// Whether the first four bytes are one of the two magic numbers: `42 4f 57 00`, which begins a log, or
/// `57 4f 42 00`, which begins a log under restoration.
pub fn has_magic(block: &[u8]) -> bool
    requires { 4 ≤ length block.now }
    ensures { IsTrue result ↔ HasMagic block.now }
{
    let first = [block[0], block[1], block[2], block[3]];
    first == LOG_MAGIC.to_le_bytes() || first == RESTORING_MAGIC.to_le_bytes()
}
