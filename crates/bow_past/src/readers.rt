// A reader of the checkpoint.
ghost use Rattle.std.specs.Prelude.{◌≡◌, ◌+◌, ◌-◌, ◌<◌, ◌≤◌, ◌++◌, ◌∷◌, ℕ, suc, [], length, replicate, slice_set, take, slice_get, vec_capacity, ◌^◌, IfSome, IfOk, OnErr, OnOk, None, Some, option_copied, slice_index_or};
ghost use Rattle.std.specs.List.{AllByRecursion as Each};
ghost use Rattle.bow_units.specs.Sizes.{IsValid};
ghost use Rattle.bow_units.specs.declared.requests.Phase.TheVariants.{Trim, Arming};
ghost use Rattle.bow_log.specs.Generations.{Generation, generation_of};
ghost use Rattle.bow_log.specs.Rules.{IsLog};
ghost use Rattle.bow_chain.specs.Places.{pass};
ghost use Rattle.bow_past.specs.Agreement.{Agrees};
ghost use Rattle.bow_past.specs.Inside.{IsOfBlock};
ghost use Rattle.bow_past.specs.Lines.{IsWhole};
ghost use Rattle.bow_past.specs.declared.ended.Ended.{Ended};
ghost use Rattle.bow_past.specs.Readings.{bytes_got, bytes_of, can_read, kept_of, missing_below, next_block, past_logs, with_ended};

use crate::ended::Ended;
use crate::places::place_by_log;
use bow_disk::Disk;
use bow_log::Log;
use bow_ranges::Ranges;
use bow_session::Session;
use bow_units::{Extent, Geometry, NoMemory, Payload, Phase};
use std::alloc::Global;
use std::marker::Model;

/// A reader of the checkpoint beside running writers: it reads the blocks of an extent, each by one read of the disk,
/// once it has read the older logs, each of them once. Contracts see it as the sizes of the device, the extent, the
/// logs that it keeps, and what became of the first blocks.
#[derive(Drop)]
pub struct Past {
    pub(crate) geometry: Geometry,
    pub(crate) extent: Extent,
    // by their sequence
    pub(crate) logs: Vec<Option<Box<Log>>>,
    // one for each block that has not ended
    pub(crate) buffers: Vec<Payload>,
    pub(crate) ended: Vec<Ended>,
    pub(crate) block: Payload,
}

impl Model for Past {
    ghost use Rattle.bow_past.specs.Readings.{Reading};
    ghost use Rattle.std.specs.Prelude.{vec_capacity};
    ghost use Rattle.bow_past.specs.Inside.{IsReader, reading_of};

    ghost Value = { Reading };

    ghost view = { λ p. reading_of p.geometry p.extent p.logs.items p.ended.items };

    ghost invariant = { λ p. IsReader p.geometry p.extent p.logs.items p.buffers.items p.ended.items
        (vec_capacity p.ended) p.block };
}

impl Past {
    /// Takes the buffers of a reader of these blocks, at most 4096, beside a session whose checkpoint has not begun.
    /// It keeps no log yet, and so agrees with the session.
    pub fn begin<D: Disk, R: Ranges + Drop>(
        alloc: Global,
        extent: Extent,
        session: &Session<D, R>,
    ) -> Result<Past, NoMemory>
        requires inside { extent.first + extent.count ≤ session.now.core.geometry.blocks }
        requires few { extent.count ≤ 4096 }
        ensures begun { IfOk result (λ p. p ≡ record {
          geometry = session.now.core.geometry;
          extent = extent;
          kept = [];
          ended = [];
        }) }
        ensures agrees { IfOk result (λ p. Agrees D.content p session.now.core) }
    {
        let geometry = session.geometry();
        let size = geometry.block_size as usize;
        let buffers = buffers(alloc, extent.count as usize, size)?;
        Ok(Past {
            geometry,
            extent,
            logs: Vec::new(alloc),
            buffers,
            ended: Vec::with_capacity(alloc, extent.count as usize)?,
            block: zeros(alloc, size)?,
        })
    }

    /// Whether it makes a step: the session is in its checkpoint, and a block is left.
    pub fn ready<D: Disk, R: Ranges + Drop>(&self, session: &Session<D, R>) -> bool
        ensures { result ≡ can_read self.now session.now.core.memory.phase }
    {
        matches!(session.status().phase, Phase::Checkpoint) && !self.buffers.is_empty()
    }

    /// What became of the first blocks, in their order.
    pub fn ended(&self) -> &[Ended]
        ensures is { result.now ≡ self.now.ended }
        ensures sized { (i : ℕ) (e : Ended) → slice_get result.now i ≡ Some e → IsWhole e }
    {
        &self.ended
    }

    /// The blocks that it is to read.
    pub fn extent(&self) -> Extent
        ensures is { result ≡ self.now.extent }
        ensures small { result.first + length self.now.ended < 2 ^ 64 }
    {
        self.extent
    }

    /// The bytes of a block that was got. `None` exactly of any other.
    pub fn bytes(&self, block: u64) -> Option<&[u8]>
        ensures { option_copied result ≡ bytes_of self.now block }
    {
        if block < self.extent.first {
            return None;
        }
        match self.ended.get((block - self.extent.first) as usize) {
            Some(ended) => bytes_in(ended),
            None => None,
        }
    }

    // The kept log of this sequence.
    fn log_of(&self, sequence: u32) -> Option<&Log>
        ensures is { option_copied result ≡ kept_of self.now sequence }
        ensures log { IfSome result (λ log. IsLog self.now.geometry log.now) }
    {
        let index = sequence as usize;
        if index >= self.logs.len() {
            return None;
        }
        match &self.logs[index] {
            Some(log) => Some(log),
            None => None,
        }
    }

    // The greatest sequence below this one of which no log is kept.
    pub(crate) fn missing(&self, present: u32) -> Option<u32>
        ensures is { result ≡ missing_below (kept_of self.now) present }
        ensures below { IfSome result (λ wanted. wanted < present) }
    {
        let mut left = present;
        while left > 0 {
            left -= 1;
            if self.log_of(left).is_none() {
                return Some(left);
            }
        }
        None
    }

    // The number of the next block.
    pub(crate) fn next(&self) -> u64
        ensures is { result ≡ next_block self.now }
        ensures on { length self.now.ended < self.now.extent.count → result < self.now.geometry.blocks }
    {
        self.extent.first + self.ended.len() as u64
    }

    // How many places for logs there are.
    pub(crate) fn places(&self) -> usize
        ensures { result ≡ length self.now.kept }
    {
        self.logs.len()
    }

    // Makes a place for the log of this sequence.
    pub(crate) fn make_place(&mut self, sequence: u32) -> Result<(), NoMemory>
        ensures grown { OnOk result ((n : ℕ) × (self.new ≡ record self.old {
          kept = self.old.kept ++ replicate n None;
        })) }
        ensures inside { OnOk result (sequence < length self.new.kept) }
        ensures kept { OnErr result (self.new ≡ self.old) }
    {
        make_places(&mut self.logs, sequence as usize + 1)
    }

    // Keeps the log of this sequence, in this box.
    pub(crate) fn keep(&mut self, sequence: u32, kept: Box<Log>, log: Log)
        requires inside { sequence < length self.old.kept }
        requires log { IsLog self.old.geometry log }
        ensures kept { self.new ≡ record self.old { kept = slice_set self.old.kept sequence (Some log) } }
    {
        let mut kept = kept;
        *kept = log;
        self.logs[sequence as usize] = Some(kept);
    }

    // No log was found: the places made for it go, and the next block ends without having been read.
    pub(crate) fn give_up(&mut self, places: usize, ended: Ended) -> u64
        requires left { length self.old.ended < self.old.extent.count }
        requires sized { IsOfBlock self.old.geometry.block_size ended }
        ensures ended { self.new ≡ with_ended (record self.old { kept = take places self.old.kept }) ended }
        ensures block { result ≡ next_block self.old }
    {
        let block = self.next();
        self.logs.truncate(places);
        drop(self.buffers.pop());
        push_ended(&mut self.ended, ended);
        block
    }

    // Where the kept logs from this sequence on, and then the log in memory, put a block.
    pub(crate) fn place(&self, log: &Log, low: u32, block: u64) -> u64
        requires log { IsLog self.now.geometry log.now }
        requires low { low ≤ log.now.sequence }
        requires on { block < self.now.geometry.blocks }
        ensures is { result ≡ pass (generation_of self.now.geometry log.now).entries (past_logs self.now.geometry
            (kept_of self.now) low (log.now.sequence - low) block) }
        ensures on { result < self.now.geometry.blocks }
    {
        let mut place = block;
        for sequence in low..log.sequence {
            if let Some(kept) = self.log_of(sequence) {
                place = place_by_log(kept, self.geometry, place);
            }
        }
        place_by_log(log, self.geometry, place)
    }
}

// So many zeros.
fn zeros(alloc: Global, size: usize) -> Result<Payload, NoMemory>
    ensures { IfOk result (λ p. length p ≡ size) }
{
    Ok(Payload::new(vec![in alloc; 0; size]?))
}

// So many buffers of this size.
fn buffers(alloc: Global, count: usize, size: usize) -> Result<Vec<Payload>, NoMemory>
    ensures each { IfOk result (λ v. Each (λ bytes. length bytes ≡ size) v.items) }
    ensures count { IfOk result (λ v. length v.items ≡ count) }
{
    let mut buffers = Vec::with_capacity(alloc, count)?;
    for _ in 0..count {
        buffers.push(zeros(alloc, size)?)?;
    }
    Ok(buffers)
}

// What was got of a block.
fn bytes_in(ended: &Ended) -> Option<&[u8]>
    ensures { option_copied result ≡ bytes_got (Some ended.now) }
{
    match ended {
        Ended::Got(bytes) => Some(bytes.as_slice()),
        Ended::Failed | Ended::Strange => None,
    }
}

// One more has ended; there is room.
pub(crate) fn push_ended(all: &mut Vec<Ended>, ended: Ended)
    requires room { length all.old.items < vec_capacity all.old }
    ensures items { all.new.items ≡ all.old.items ++ ended ∷ [] }
    ensures room { vec_capacity all.old ≤ vec_capacity all.new }
{
    if let Err(_full) = all.push(ended) {}
}

// As many places for logs as this, without a log in those that are new.
fn make_places(logs: &mut Vec<Option<Box<Log>>>, count: usize) -> Result<(), NoMemory>
    ensures grown { OnOk result ((n : ℕ) × (logs.new.items ≡ logs.old.items ++ replicate n None)) }
    ensures many { OnOk result (count ≤ length logs.new.items) }
    ensures kept { OnErr result (logs.new.items ≡ logs.old.items) }
{
    let before = logs.len();
    while logs.len() < count {
        if logs.push(None).is_err() {
            logs.truncate(before);
            return Err(NoMemory);
        }
    }
    Ok(())
}
