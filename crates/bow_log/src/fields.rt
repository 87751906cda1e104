// The numbers in a block.
ghost use Rattle.std.specs.Prelude.{◌≡◌, ◌+◌, ◌≤◌, length};
ghost use Rattle.std.specs.Int.{w16, w32, w64};
ghost use Rattle.bow_log.specs.Faults.{number_at, entry_at};

use crate::entries::Entry;

#[tactic(auto, unfolding(crate::specs::Faults::number_at))]
pub(crate) fn u16_at(block: &[u8], at: usize) -> u16
    requires { at + 2 ≤ length block.now }
    ensures { result ≡ number_at w16 at block.now }
{
    let (front, _) = block[at..].split_at(2);
    u16::from_le_bytes([front[0], front[1]])
}

#[tactic(auto, unfolding(crate::specs::Faults::number_at))]
pub(crate) fn u32_at(block: &[u8], at: usize) -> u32
    requires { at + 4 ≤ length block.now }
    ensures { result ≡ number_at w32 at block.now }
{
    let (front, _) = block[at..].split_at(4);
    u32::from_le_bytes([front[0], front[1], front[2], front[3]])
}

#[tactic(auto, unfolding(crate::specs::Faults::number_at))]
pub(crate) fn u64_at(block: &[u8], at: usize) -> u64
    requires { at + 8 ≤ length block.now }
    ensures { result ≡ number_at w64 at block.now }
{
    let (front, _) = block[at..].split_at(8);
    u64::from_le_bytes([
        front[0], front[1], front[2], front[3], front[4], front[5], front[6], front[7],
    ])
}

pub(crate) fn entry_at(block: &[u8], at: usize) -> Entry
    requires { at + 24 ≤ length block.now }
    ensures { result ≡ entry_at at block.now }
{
    Entry {
        source: u64_at(block, at),
        dest: u64_at(block, at + 8),
        size: u32_at(block, at + 16),
        sum: u32_at(block, at + 20),
    }
}
