// Older logs.
ghost use Rattle.std.specs.Prelude.{◌≡◌, length, IfSome, MatchOption};
ghost use Rattle.bow_units.specs.Sizes.{IsValid};
ghost use Rattle.bow_log.specs.Rules.{IsLog};
ghost use Rattle.bow_log.specs.Spelling.{Fields};
ghost use Rattle.bow_past.specs.Reach.{IsWanted};

use arrayvec::ArrayVec;
use bow_log::{Log, Magic, read_log};
use bow_units::Geometry;

/// A log with nothing in it.
pub(crate) fn empty_log() -> Log {
    Log {
        magic: Magic::Log,
        block_size: 0,
        sequence: 0,
        sector0: 0,
        entries: ArrayVec::new(),
    }
}

/// The log of this sequence, under no restoration, that a block spells.
pub(crate) fn wanted_log(block: &[u8], geometry: Geometry, wanted: u32) -> Option<Log>
    requires valid { IsValid geometry }
    requires one { length block.now ≡ geometry.block_size }
    ensures log { IfSome result (λ log. IsLog geometry log) }
    ensures wanted { MatchOption result ((log : Fields) → ¬ IsWanted geometry block.now wanted log)
        (λ log. IsWanted geometry block.now wanted log) }
{
    let mut log = empty_log();
    if read_log(block, geometry, &mut log).is_err() {
        return None;
    }
    if !matches!(log.magic, Magic::Log) || log.sequence != wanted {
        return None;
    }
    Some(log)
}
