// What holds of the checksum and of the sum, whatever computes them.
ghost use Rattle.std.specs.Prelude.{◌≡◌, codes};
ghost use Rattle.bow_crc.specs.Crc.{crc_of};
ghost use Rattle.bow_crc.specs.Laws.{Joins, ByteTells, BlockTells, CutsJoined};

/// The published value of CRC-32, of the text `123456789`.
#[tactic(auto, unfolding(crate::specs::Crc::crc_of, crate::specs::Crc::byte_in))]
pub fn value_law()
    ensures { crc_of (codes "123456789") ≡ 0xCBF43926 }
{}

/// The register after two texts is the one after their joining, from any start.
pub fn register_law()
    ensures { Joins }
{}

/// Two texts of the same length that differ in one byte, as by one flipped bit, have two checksums.
pub fn byte_law()
    ensures { ByteTells }
{}

/// Where a block differs in one byte, as by one flipped bit, the sum differs.
pub fn block_law()
    ensures { BlockTells }
{}

/// Blocks that were joined are cut again into these blocks.
pub fn cut_law()
    ensures { CutsJoined }
{}
