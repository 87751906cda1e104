// CRC-32 of one block, two of its groups in each vector.
//
// Behind its first term the multiple of `lanes` has none for more than 128 bits, so a group changes nothing in the next
// one, and two that follow one another go out at once. What both change in the second and the fourth group behind them
// stands in one vector each; what they change in the third and the fifth waits a group further, in vectors of its own.
ghost use Rattle.std.specs.Prelude.{◌≡◌, ◌+◌, ◌*◌, ◌^◌, ◌≤◌, ℕ, [], ◌∷◌, length, bit_xor, slice_index};
ghost use Rattle.bow_crc.specs.Crc.{bits_out};
ghost use Rattle.bow_crc.specs.Sums.{block_sum};
ghost use Rattle.bow_crc.specs.Lanes.{both, number, behind};

use crate::lanes::{changes, group, last_in};
use std::simd::u64x2;

// The last lane of the one and the first of the other.
#[inline(always)]
fn between(x: u64x2, y: u64x2) -> u64x2
    ensures { result ≡ slice_index x 1 ∷ slice_index y 0 ∷ [] }
{
    u64x2::from_array([x.to_array()[1], y.to_array()[0]])
}

// Lets the next two groups go out, where those before them have changed them and the three behind them so: what they
// change in the next five leads to the same register.
#[inline(always)]
fn go_out(
    next: u64x2,
    near: u64x2,
    far: u64x2,
    near_odd: u64x2,
    far_odd: u64x2,
) -> (u64x2, u64x2, u64x2, u64x2)
    ensures { (m rest : ℕ) → 269 ≤ m →
        bits_out (m + 128) (bit_xor (behind near far near_odd far_odd)
        (bit_xor (both (slice_index next 0) (slice_index next 1)) (rest * 2 ^ 128)))
        ≡ bits_out m (bit_xor (behind result.0 result.1 result.2 result.3) rest) }
{
    let (second, third, fourth, fifth) = changes(near ^ next);
    let odd = far_odd ^ third;
    ((far ^ second) ^ between(near_odd, odd), fourth, odd, fifth)
}

// Two groups of eight bytes.
#[inline(always)]
fn two_groups(bytes: &[u8]) -> u64x2
    requires { length bytes.now ≡ 16 }
    ensures { both (slice_index result 0) (slice_index result 1) ≡ number bytes.now }
{
    let (front, back) = bytes.split_at(8);
    u64x2::from_array([group(front), group(back)])
}

// The sum of a block of six groups or more.
pub(crate) fn of_long(number: u64, block: &[u8]) -> u32
    requires { 48 ≤ length block.now }
    ensures { result ≡ block_sum number block.now }
{
    let start = u64x2::from_array([0, number ^ 0xFFFF_FFFF]);
    let none = u64x2::splat(0);
    let (mut near, mut far, mut near_odd, mut far_odd) = go_out(start, none, none, none, none);
    let mut rest = block;
    while rest.len() >= 80 {
        let (two, later) = rest.split_at(16);
        (near, far, near_odd, far_odd) = go_out(two_groups(two), near, far, near_odd, far_odd);
        let (two, later) = later.split_at(16);
        (near, far, near_odd, far_odd) = go_out(two_groups(two), near, far, near_odd, far_odd);
        rest = later;
    }
    let [a, b] = near.to_array();
    let [c, d] = (far ^ between(near_odd, far_odd)).to_array();
    let [_, e] = far_odd.to_array();
    !last_in(a, b, c, d, e, rest)
}
