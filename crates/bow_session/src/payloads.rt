// The buffers of a lane, and its requests with them.
ghost use Rattle.std.specs.Prelude.{◌≡◌, ◌+◌, ◌*◌, ◌-◌, ◌<◌, ◌≤◌, ◌^◌, ◌++◌, ℕ, List, length, replicate, take, drop, IfOk, None, slice_index_or, slice_set, MatchOption};
ghost use Rattle.bow_units.specs.Pattern.{pattern};
ghost use Rattle.bow_units.specs.Sizes.{IsValid, IsBlockSize};
ghost use Rattle.bow_script.specs.Grammar.{IsFitting};
ghost use Rattle.bow_session.specs.Buffers.{HasBuffers, IsKeptFor, with_buffer, without_lent};
ghost use Rattle.bow_session.specs.Requests.{written, patterns, request_of};

use bow_script::Line;
use bow_units::{Extent, Geometry, NoMemory, Op, Payload, fill_pattern};
use std::alloc::Global;

// A buffer for a write of each number of blocks up to 16, by that number.
pub(crate) fn take_buffers(alloc: Global, size: u32) -> Result<Vec<Option<Payload>>, NoMemory>
    requires { IsBlockSize size }
    ensures { IfOk result (λ v. HasBuffers size 0 v.items) }
{
    let mut buffers = Vec::new(alloc);
    for count in 0..17u32 {
        let bytes = vec![in alloc; 0u8; count as usize * size as usize]?;
        buffers.push(Some(Payload::new(bytes)))?;
    }
    Ok(buffers)
}

// The buffer of a read, of zeros.
pub(crate) fn read_buffer(
    alloc: Global,
    line: &Line,
    geometry: Geometry,
) -> Result<Option<Payload>, NoMemory>
    requires numbers { IsFitting line.now }
    requires valid { IsValid geometry }
    ensures { IfOk result (λ b. IsKeptFor geometry (request_of geometry.block_size line.now) b) }
{
    match line {
        Line::Read { count, .. } => {
            let bytes = vec![in alloc; 0u8; *count as usize * geometry.block_size as usize]?;
            Ok(Some(Payload::new(bytes)))
        }
        Line::Write { .. }
        | Line::WriteHex { .. }
        | Line::Discard { .. }
        | Line::Flush
        | Line::Prepare
        | Line::Commit => Ok(None),
    }
}

// The request of a line, for a device of this geometry: a read has its own buffer; a write has one of the lane's,
// filled with the patterns of its blocks, or with zeros where one of them is on no device, or with its bytes and then
// zeros.
pub(crate) fn request(
    line: &Line,
    own: Option<Payload>,
    buffers: &mut Vec<Option<Payload>>,
    geometry: Geometry,
) -> Option<Op>
    requires numbers { IsFitting line.now }
    requires valid { IsValid geometry }
    requires own { IsKeptFor geometry (request_of geometry.block_size line.now) own }
    requires buffers { HasBuffers geometry.block_size 0 buffers.old.items }
    ensures is { MatchOption result ⊥ (λ op. op ≡ with_buffer (request_of geometry.block_size line.now) own) }
    ensures buffers { buffers.new.items ≡ without_lent (request_of geometry.block_size line.now) buffers.old.items }
{
    let size = geometry.block_size;
    match line {
        Line::Write { first, count, seed } => {
            let buffer = lend(buffers, *count)?;
            let payload = patterned(buffer, size, *first, *count, *seed);
            Some(Op::Write(extent(*first, *count), payload))
        }
        Line::WriteHex { first, bytes } => {
            let buffer = lend(buffers, 1)?;
            Some(Op::Write(extent(*first, 1), begun_with(buffer, bytes.as_slice())))
        }
        Line::Read { first, count } => Some(Op::Read(extent(*first, *count), own?)),
        Line::Discard { first, count } => Some(Op::Discard(extent(*first, *count))),
        Line::Flush => Some(Op::Flush),
        Line::Prepare => Some(Op::Prepare),
        Line::Commit => Some(Op::Commit),
    }
}

/// The extent of so many blocks from this one on.
pub fn extent(first: u32, count: u32) -> Extent
    ensures { result ≡ record { first = first; count = count } }
{
    Extent {
        first: first as u64,
        count: count as u64,
    }
}

// The buffer of so many blocks, which the lane then does not have.
fn lend(buffers: &mut Vec<Option<Payload>>, count: u32) -> Option<Payload>
    requires { count < length buffers.old.items }
    ensures value { result ≡ slice_index_or buffers.old.items count None }
    ensures after { buffers.new.items ≡ slice_set buffers.old.items count None }
{
    buffers[count as usize].take()
}

/// The buffer with what a line `write first count seed` writes: the pattern of each block, or zeros where one of them
/// is on no device.
///
/// Condition: at most 16 blocks of a size that blocks may have, and a buffer of their length in bytes.
pub fn patterned(buffer: Payload, size: u32, first: u32, count: u32, seed: u32) -> Payload
    requires few { count ≤ 16 }
    requires size { IsBlockSize size }
    requires long { length buffer ≡ count * size }
    ensures { result ≡ written size first count seed }
{
    let Payload { mut bytes } = buffer;
    if first as u64 + count as u64 > 1_048_576 {
        bytes.fill(0);
    } else {
        fill_patterns(&mut bytes, size, first, count, seed);
    }
    Payload::new(bytes)
}

// The patterns of blocks that a device may have.
fn fill_patterns(bytes: &mut Vec<u8>, size: u32, first: u32, count: u32, seed: u32)
    requires few { count ≤ 16 }
    requires on { first + count ≤ 1048576 }
    requires size { IsBlockSize size }
    requires long { length bytes.old.items ≡ count * size }
    ensures { bytes.new.items ≡ patterns size first count seed }
{
    for i in 0..count {
        fill_slot(bytes, size as usize, i, (first + i) as u64, seed);
    }
}

// The pattern of a block, in the slot of this number.
fn fill_slot(bytes: &mut Vec<u8>, size: usize, slot: u32, block: u64, seed: u32)
    requires few { slot < 16 }
    requires on { block < 1048576 }
    requires size { IsBlockSize size }
    requires room { (slot + 1) * size ≤ length bytes.old.items }
    ensures len { length bytes.new.items ≡ length bytes.old.items }
    ensures front { take (slot * size) bytes.new.items ≡ take (slot * size) bytes.old.items }
    ensures here { take size (drop (slot * size) bytes.new.items) ≡ pattern block seed size }
{
    let start = slot as usize * size;
    fill_pattern(block, seed, &mut bytes[start..start + size]);
}

/// The buffer with these bytes, and zeros behind them.
///
/// Condition: there is room for them.
pub fn begun_with(buffer: Payload, text: &[u8]) -> Payload
    requires { length text.now ≤ length buffer }
    ensures { result ≡ text.now ++ replicate (length buffer - length text.now) 0 }
{
    let Payload { mut bytes } = buffer;
    put_front(&mut bytes, text);
    clear_from(&mut bytes, text.len());
    Payload::new(bytes)
}

fn put_front(bytes: &mut [u8], text: &[u8])
    requires { length text.now ≤ length bytes.old }
    ensures len { length bytes.new ≡ length bytes.old }
    ensures front { take (length text.now) bytes.new ≡ text.now }
{
    bytes[0..text.len()].copy_from_slice(text);
}

fn clear_from(bytes: &mut Vec<u8>, at: usize)
    requires { at ≤ length bytes.old.items }
    ensures { bytes.new.items ≡ take at bytes.old.items ++ replicate (length bytes.old.items - at) 0 }
{
    bytes[at..].fill(0);
}
