// CRC-32 of eight blocks at a time, two in each vector.
//
// A group of eight bytes goes out by way of a multiple of the polynomial that has five terms: it is put into four later
// places, by shifts and exclusive ors alone, so no table is read but for the last bytes of each block. The multiple is
// x^300 + x^155 + x^117 + x^89 + 1. The first bit is that of the highest power, so a bit that goes out changes those
// that come 300 - 155 = 2 * 64 + 17, 300 - 117 = 2 * 64 + 55, 300 - 89 = 3 * 64 + 19 and 300 = 4 * 64 + 44 bits behind
// it.
ghost use Rattle.std.specs.Prelude.{◌≡◌, ◌+◌, ◌-◌, ◌*◌, ◌/◌, ◌%◌, ◌^◌, ◌<◌, ◌≤◌, ℕ, length, bit_xor, slice_index};
ghost use Rattle.bow_crc.specs.Crc.{bits_out, register, crc_of};
ghost use Rattle.bow_crc.specs.Sums.{block_sum};
ghost use Rattle.bow_crc.specs.Lanes.{eighth, number, both, groups, carry, carried};

use crate::sums::of_block;
use crate::table::{add, add_sixteen};
use std::simd::u64x2;

// What the group in each lane changes in the four that come one behind the next.
#[inline(always)]
pub(crate) fn changes(w: u64x2) -> (u64x2, u64x2, u64x2, u64x2)
    ensures { (j : ℕ) → j < 2 →
        groups 0 (slice_index result.0 j) (slice_index result.1 j) (slice_index result.2 j) (slice_index result.3 j)
        ≡ carry (slice_index w j) }
{
    (
        (w << u64x2::splat(17)) ^ (w << u64x2::splat(55)),
        (w >> u64x2::splat(47)) ^ ((w >> u64x2::splat(9)) ^ (w << u64x2::splat(19))),
        (w >> u64x2::splat(45)) ^ (w << u64x2::splat(44)),
        w >> u64x2::splat(20),
    )
}

// Lets the next group of two blocks go out, where those before it have changed it and the four behind it so: what it
// changes in the next five leads to the same register.
#[inline(always)]
fn go_out(
    next: u64x2,
    a: u64x2,
    b: u64x2,
    c: u64x2,
    d: u64x2,
    e: u64x2,
) -> (u64x2, u64x2, u64x2, u64x2, u64x2)
    ensures { (j : ℕ) → j < 2 → (m rest : ℕ) → 269 ≤ m →
        bits_out (m + 64) (bit_xor (carried j a b c d e) (bit_xor (slice_index next j) (rest * 2 ^ 64)))
        ≡ bits_out m (bit_xor (carried j result.0 result.1 result.2 result.3 result.4) rest) }
{
    let (second, third, fourth, fifth) = changes(a ^ next);
    (b, c ^ second, d ^ third, e ^ fourth, fifth)
}

// A group of eight bytes.
#[inline(always)]
pub(crate) fn group(bytes: &[u8]) -> u64
    requires { length bytes.now ≡ 8 }
    ensures { result ≡ number bytes.now }
{
    u64::from_le_bytes([
        bytes[0], bytes[1], bytes[2], bytes[3], bytes[4], bytes[5], bytes[6], bytes[7],
    ])
}

// The register after sixteen bytes more, two groups of which are changed so.
#[inline(always)]
fn add_changed(register: u32, low: u64, high: u64, bytes: &[u8]) -> u32
    requires { length bytes.now ≡ 16 }
    ensures { result ≡ bits_out (8 * length bytes.now) (bit_xor register (bit_xor (both low high) (number bytes.now))) }
{
    let (front, back) = bytes.split_at(8);
    let low = low ^ group(front);
    let high = high ^ group(back);
    let both = low as u128 + ((high as u128) << 64);
    add_sixteen(register, &both.to_le_bytes())
}

// The register after the last bytes of a block, the first five groups of which are changed so.
pub(crate) fn last_in(a: u64, b: u64, c: u64, d: u64, e: u64, bytes: &[u8]) -> u32
    requires { 48 ≤ length bytes.now }
    ensures { result ≡ bits_out (8 * length bytes.now) (bit_xor (groups a b c d e) (number bytes.now)) }
{
    let (first, rest) = bytes.split_at(16);
    let (second, rest) = rest.split_at(16);
    let (third, rest) = rest.split_at(16);
    let register = add_changed(0, a, b, first);
    let register = add_changed(register, c, d, second);
    let register = add_changed(register, e, 0, third);
    add(register, rest)
}

// The sums of two blocks of one length, with these numbers.
fn of_two(low: u64, first: &[u8], high: u64, second: &[u8]) -> [u32; 2]
    requires same { length first.now ≡ length second.now }
    requires enough { 48 ≤ length first.now }
    ensures first { slice_index result 0 ≡ block_sum low first.now }
    ensures second { slice_index result 1 ≡ block_sum high second.now }
{
    let start = u64x2::from_array([low ^ 0xFFFF_FFFF, high ^ 0xFFFF_FFFF]);
    let none = u64x2::splat(0);
    let (mut a, mut b, mut c, mut d, mut e) = go_out(start, none, none, none, none, none);
    let mut left = first;
    let mut right = second;
    while left.len() >= 56 {
        let (x, left_rest) = left.split_at(8);
        let (y, right_rest) = right.split_at(8);
        let next = u64x2::from_array([group(x), group(y)]);
        (a, b, c, d, e) = go_out(next, a, b, c, d, e);
        left = left_rest;
        right = right_rest;
    }
    let a = a.to_array();
    let b = b.to_array();
    let c = c.to_array();
    let d = d.to_array();
    let e = e.to_array();
    [
        !last_in(a[0], b[0], c[0], d[0], e[0], left),
        !last_in(a[1], b[1], c[1], d[1], e[1], right),
    ]
}

// Block i of eight of one length.
fn block_at(bytes: &[u8], lane: usize) -> &[u8]
    requires whole { length bytes.now % 8 ≡ 0 }
    requires on { lane < 8 }
    ensures block { result.now ≡ eighth lane bytes.now }
    ensures long { length result.now ≡ length bytes.now / 8 }
{
    let size = bytes.len() / 8;
    &bytes[size * lane..size * lane + size]
}

/// CRC-32 of eight blocks of one length, which stand in `bytes` one after the other, each behind the eight
/// little-endian bytes of its number: lane i of the result is [`crc`](crate::crc) of those of `numbers[i]` followed by
/// block i.
pub fn crc_lanes(bytes: &[u8], numbers: [u64; 8]) -> [u32; 8]
    requires whole { length bytes.now % 8 ≡ 0 }
    requires few { length bytes.now ≤ 32768 }
    ensures { (i : ℕ) → i < 8 → slice_index result i ≡ block_sum (slice_index numbers i) (eighth i bytes.now) }
{
    let mut sums = [0; 8];
    if bytes.len() < 384 {
        for lane in 0..8usize {
            sums[lane] = of_block(numbers[lane], block_at(bytes, lane));
        }
        return sums;
    }
    for pair in 0..4usize {
        let lane = 2 * pair;
        let first = block_at(bytes, lane);
        let second = block_at(bytes, lane + 1);
        let [x, y] = of_two(numbers[lane], first, numbers[lane + 1], second);
        sums[lane] = x;
        sums[lane + 1] = y;
    }
    sums
}
