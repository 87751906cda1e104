// One run of the program over a phone in memory.
ghost use Rattle.std.specs.Prelude.{◌≡◌, ◌*◌, length, IfOk};

use arrayvec::ArrayVec;
use bow_disk::{FailMode, MemDisk, Pick};
use bow_tool::tool;
use bow_units::{Geometry, MemSink, MemSource, OpenGate, pattern_of};
use std::alloc::Global;
use std::sync::Wait;
use std::test::Fail;
use std::thread::Threads;
use vold_meta::{AttemptText, MemKeeper};

/// A phone: its image, in blocks of 512 bytes, the text of attempts that is kept, and which calls fail.
#[derive(Drop)]
pub(crate) struct Phone {
    pub(crate) image: Vec<u8>,
    pub(crate) kept: Option<AttemptText>,
    pub(crate) fails: Option<(u64, FailMode)>,
    pub(crate) hides_sizes: bool,
    pub(crate) stops: Option<u64>,
    pub(crate) keeper_fails: Option<u64>,
    pub(crate) source_fails: Option<u64>,
    pub(crate) sink_fails: Option<u64>,
}

/// What came of a run: its status, what was told, and the phone as it is left, with two of its crash images.
#[derive(Drop)]
pub(crate) struct Ran {
    pub(crate) status: u8,
    pub(crate) told: Vec<u8>,
    pub(crate) calls: u64,
    pub(crate) image: Vec<u8>,
    pub(crate) oldest: Vec<u8>,
    pub(crate) newest: Vec<u8>,
    pub(crate) kept: Option<AttemptText>,
}

/// A phone with this image, on which no call fails.
pub(crate) fn phone_with(image: Vec<u8>) -> Phone {
    Phone {
        image,
        kept: None,
        fails: None,
        hides_sizes: false,
        stops: None,
        keeper_fails: None,
        source_fails: None,
        sink_fails: None,
    }
}

/// A text of these bytes, of which there are at most 16.
pub(crate) fn text(bytes: &[u8]) -> AttemptText {
    let mut text = ArrayVec::new();
    let _ = text.try_extend_from_slice(bytes);
    text
}

/// Whether this text is kept.
pub(crate) fn keeps(kept: &Option<AttemptText>, bytes: &[u8]) -> bool {
    match kept {
        Some(text) => text.as_slice() == bytes,
        None => false,
    }
}

// The sizes of 512-byte blocks that make up this image: those of a device, or of none.
fn sizes_of(image: &[u8]) -> Result<Geometry, Fail>
    ensures { IfOk result (λ g. length image.now ≡ g.blocks * g.block_size) }
{
    if image.len() % 512 != 0 {
        return Err(Fail::from("the sizes of an image"));
    }
    Ok(Geometry {
        block_size: 512,
        blocks: (image.len() / 512) as u64,
    })
}

/// A disk that holds the phone's image, with its calls that fail.
pub(crate) fn disk_of(alloc: Global, phone: &Phone) -> Result<MemDisk, Fail> {
    let sizes = sizes_of(&phone.image)?;
    let mut disk = MemDisk::new(alloc, sizes, phone.image.to_vec(alloc)?, 400)?;
    if let Some((call, mode)) = phone.fails {
        disk.fail_at(call, mode)?;
    }
    if phone.hides_sizes {
        disk.fail_sizes(1);
    }
    if let Some(calls) = phone.stops {
        disk.stop_after(calls);
    }
    Ok(disk)
}

/// The words `image attempts 512` and these.
pub(crate) fn words_with(alloc: Global, own: &[&str]) -> Result<Vec<String>, Fail> {
    let mut words = Vec::new(alloc);
    for word in ["image", "attempts", "512"].iter().chain(own) {
        words.push(String::from_str(alloc, word)?)?;
    }
    Ok(words)
}

/// The program with the words `image attempts 512` and these over the phone, with this script at its source.
pub(crate) fn run<H: Threads + Wait + Sync>(
    rt: &H,
    alloc: Global,
    phone: &Phone,
    own: &[&str],
    script: &str,
) -> Result<Ran, Fail> {
    let words = words_with(alloc, own)?;
    let mut keeper = MemKeeper::new(alloc, phone.kept.clone()?);
    if let Some(call) = phone.keeper_fails {
        keeper.fail_at(call, false)?;
    }
    let mut source = MemSource::new(alloc, script.as_bytes().to_vec(alloc)?);
    if let Some(call) = phone.source_fails {
        source.fail_at(call)?;
    }
    let mut sink = MemSink::new(alloc, 65_536)?;
    if let Some(call) = phone.sink_fails {
        sink.fail_at(call)?;
    }
    let ended = tool(
        rt,
        alloc,
        &words,
        disk_of(alloc, phone)?,
        keeper,
        &mut source,
        &mut sink,
        &OpenGate,
    );
    Ok(Ran {
        status: ended.status,
        told: sink.bytes().to_vec(alloc)?,
        calls: ended.disk.calls(),
        image: ended.disk.image(alloc)?,
        oldest: ended.disk.cut(alloc, Pick::Oldest)?,
        newest: ended.disk.cut(alloc, Pick::Newest)?,
        kept: ended.keeper.text(),
    })
}

/// Whether block `at` holds the pattern of its number with this seed.
pub(crate) fn holds(image: &[u8], at: usize, seed: u32) -> bool {
    at < 1024
        && at * 512 + 512 <= image.len()
        && pattern_of(&image[at * 512..at * 512 + 512]) == Some((at as u32, seed))
}

/// Whether each block below this one holds its own pattern with seed 0.
pub(crate) fn is_back(image: &[u8], blocks: usize) -> bool {
    for block in 0..blocks.min(1024) {
        if !holds(image, block, 0) {
            return false;
        }
    }
    true
}
