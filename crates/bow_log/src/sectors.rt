// Sectors of 512 bytes, and the blocks in which they lie.
ghost use Rattle.std.specs.Prelude.{◌≡◌, ◌/◌};
ghost use Rattle.bow_units.specs.Sizes.{IsValid};
ghost use Rattle.bow_log.specs.Generations.{room, sectors};
ghost use Rattle.bow_log.specs.Rules.{begins_block, is_current};

use bow_units::Geometry;

/// How many entries a log in a block of this size, in bytes, has room for: 20, 41, 84 and 169 for blocks
/// of 512, 1024, 2048 and 4096 bytes.
pub fn capacity(block_size: u32) -> u32
    ensures { result ≡ room block_size }
{
    block_size.saturating_sub(28) / 24
}

pub(crate) fn begins_block(sector: u64, geometry: Geometry) -> bool
    requires { IsValid geometry }
    ensures { result ≡ begins_block geometry sector }
{
    sector % geometry.sectors() == 0
}

pub(crate) fn block_of(sector: u64, geometry: Geometry) -> u64
    requires { IsValid geometry }
    ensures { result ≡ sector / sectors geometry }
{
    sector / geometry.sectors()
}

/// Whether the current block 0 may lie at this sector.
pub(crate) fn is_current(sector: u64, geometry: Geometry) -> bool
    requires { IsValid geometry }
    ensures { result ≡ is_current geometry sector }
{
    sector > 0 && begins_block(sector, geometry) && block_of(sector, geometry) < geometry.blocks
}
