// The pattern of a block.
ghost use Rattle.std.specs.Prelude.{◌≡◌, ◌+◌, ◌*◌, ◌<◌, ◌≤◌, ◌^◌, ◌++◌, ◌↔◌, ℕ, take, length, IsTrue, IfSome, IfNone};
ghost use Rattle.byteorder.specs.Endian.{little_bytes};
ghost use Rattle.bow_units.specs.Pattern.{pattern, pattern_group, IsPatternOf};
ghost use Rattle.bow_units.specs.Sizes.{IsBlockSize};

use byteorder::{ByteOrder, LittleEndian};

/// Fills a block with the pattern of block `block` with seed `seed`: the 8-byte group number j, counted
/// from 0, is the little-endian number `seed * 2^32 + block * 512 + j`.
pub fn fill_pattern(block: u64, seed: u32, into: &mut [u8])
    requires on { block < 1048576 }
    requires size { IsBlockSize (length into.old) }
    ensures { into.new ≡ pattern block seed (length into.old) }
{
    let first = first_number(block, seed);
    for group in 0..into.len() / 8 {
        write_group(into, group * 8, first + group as u64);
    }
}

/// The block and the seed whose pattern these bytes are. `None` where they are the pattern of no block
/// below 1,048,576. The bytes are one block.
pub fn pattern_of(bytes: &[u8]) -> Option<(u32, u32)>
    requires { IsBlockSize (length bytes.now) }
    ensures found { IfSome result (λ r. IsPatternOf bytes.now r.0 r.1) }
    ensures one { IfSome result (λ r. (b s : ℕ) → IsPatternOf bytes.now b s → (b ≡ r.0) × (s ≡ r.1)) }
    ensures none { IfNone result ((b s : ℕ) → IsPatternOf bytes.now b s → ⊥) }
{
    let number = LittleEndian::read_u64(bytes);
    let seed = (number / 0x1_0000_0000) as u32;
    let block = number % 0x1_0000_0000 / 512;
    if block >= 1_048_576 {
        return None;
    }
    if is_pattern(bytes, block, seed) {
        Some((block as u32, seed))
    } else {
        None
    }
}

fn is_pattern(bytes: &[u8], block: u64, seed: u32) -> bool
    requires on { block < 1048576 }
    requires size { IsBlockSize (length bytes.now) }
    ensures { IsTrue result ↔ (bytes.now ≡ pattern block seed (length bytes.now)) }
{
    let first = first_number(block, seed);
    for group in 0..bytes.len() / 8 {
        let wanted = (first + group as u64).to_le_bytes();
        let found = &bytes[group * 8..group * 8 + 8];
        if found != wanted.as_slice() {
            return false;
        }
    }
    true
}

// The number of the group 0.
fn first_number(block: u64, seed: u32) -> u64
    requires { block < 1048576 }
    ensures { result ≡ seed * 2 ^ 32 + block * 512 }
{
    seed as u64 * 0x1_0000_0000 + block * 512
}

fn write_group(into: &mut [u8], at: usize, number: u64)
    requires { at + 8 ≤ length into.old }
    ensures { take (at + 8) into.new ≡ take at into.old ++ little_bytes 8 number }
{
    LittleEndian::write_u64(&mut into[at..], number);
}
