// What holds of logs, whatever reads and writes them.
ghost use Rattle.bow_log.specs.Laws.{SpellingIsClean, NoMagicIsNone, SpelledHasMagic, PlainSpellsNone, IsInBlocks, IsInSectors, BlockFits, BlockGives, BlockTakes};

/// A log is valid for a device exactly where the block that spells it has no fault.
pub fn spelling_law()
    ensures { SpellingIsClean }
{}

/// A log and the generation that it is say the same: each gives the other, in blocks or in sectors, and
/// keeps the rules where the other does. So a block spells one generation, and each generation is
/// spelled by one block of bytes.
pub fn generation_law()
    ensures in_blocks { IsInBlocks }
    ensures in_sectors { IsInSectors }
    ensures read { BlockGives }
    ensures fits { BlockFits }
    ensures spelled { BlockTakes }
{}

/// A block of bytes that spells a log begins with one of the two magics, and one that begins with neither spells none.
pub fn magic_law()
    ensures fault { NoMagicIsNone }
    ensures spelled { SpelledHasMagic }
    ensures plain { PlainSpellsNone }
{}
