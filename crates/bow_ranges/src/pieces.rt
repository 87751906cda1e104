// Blocks that a list of extents holds alike.
ghost use Rattle.std.specs.Prelude.{◌≡◌, ◌+◌, ◌<◌, ◌≤◌, ℕ};
ghost use Rattle.std.specs.List.{list_any};
ghost use Rattle.bow_ranges.specs.Kinds.{holds};

use bow_units::Extent;

/// So many blocks from a place on, all of them in one of some extents, or none of them.
#[derive(Clone, Copy)]
pub struct Piece {
    pub count: u64,
    /// One of the extents holds them.
    pub spared: bool,
}

/// A piece of at most `limit` blocks from `at` on.
pub fn piece_of(at: u64, limit: u64, but: &[Extent]) -> Piece
    requires { 0 < limit }
    ensures some { 0 < result.count }
    ensures most { result.count ≤ limit }
    ensures alike { (b : ℕ) → at ≤ b → b < at + result.count
        → list_any (λ other. holds other b) but.now ≡ result.spared }
{
    let mut count = limit;
    for other in but {
        if at < other.first {
            count = count.min(other.first - at);
        } else if at - other.first < other.count {
            return Piece {
                count: count.min(other.count - (at - other.first)),
                spared: true,
            };
        }
    }
    Piece {
        count,
        spared: false,
    }
}
