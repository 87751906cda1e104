// What the device keeps in memory.
ghost use Rattle.std.specs.Prelude.{◌≡◌, ◌+◌, ◌-◌, ◌^◌, ◌<◌, ◌≤◌, ◌++◌, ◌∷◌, [], length, IfOk, false};
ghost use Rattle.bow_queue.specs.Requests.{fresh_request};
ghost use Rattle.bow_units.specs.Sizes.{IsValid};
ghost use Rattle.bow_machine.specs.Memory.{place_of, has_command, has_move, is_direct, kinds_written};
ghost use Rattle.bow_machine.specs.Laws.{opened};
ghost use Rattle.bow_machine.specs.Memory.{kind_written as written_kind};
ghost use Rattle.bow_ranges.specs.Kinds.{kind_at};
ghost use Rattle.bow_core.specs.Inside.{is_saved};
ghost use Rattle.std.specs.Prelude.{option_copied};
ghost use Rattle.std.specs.Option.{option_map};
ghost use Rattle.bow_log.specs.Generations.{fields_of};
ghost use Rattle.bow_machine.specs.Shown.{status_of};
ghost use Rattle.bow_core.specs.Held.{with_memory};

use crate::Ticket;
use crate::hands::Hand;
use bow_copy::Job;
use bow_log::Log;
use bow_queue::Queue;
use bow_ranges::Ranges;
use bow_units::{Extent, Geometry, Kind, NoMemory, Op, Phase, Status};
use std::alloc::Global;
use std::marker::Model;

/// How many blocks a batch has at most.
pub(crate) const MOST_COPIED: u64 = 8;

/// What the device keeps in memory. All of it is taken when it is opened.
#[derive(Drop)]
pub(crate) struct State<R: Ranges> {
    pub(crate) geometry: Geometry,
    pub(crate) phase: Phase,
    pub(crate) table: R,
    pub(crate) queue: Queue,
    pub(crate) hand: Hand,
    // What the batch or the command in hand has read: a batch's slots, or block 0.
    pub(crate) buffer: Vec<u8>,
    // One block: of the log as it is written, or of a request as it is read.
    pub(crate) block: Vec<u8>,
    // The log in memory: none exactly in `Trim` and `Committed`.
    pub(crate) log: Option<Log>,
    // The log in memory is known to be durable in block 0.
    pub(crate) clean: bool,
    // How many blocks were free at the prepare.
    pub(crate) trimmed: u64,
    // The blocks that are `Saved`.
    pub(crate) saved: Extent,
}

impl<R: Ranges> Model for State<R> {
    ghost use Rattle.std.specs.Option.{option_map};
    ghost use Rattle.bow_log.specs.Generations.{generation_of};
    ghost use Rattle.bow_core.specs.Held.{Held, hand_of};
    ghost use Rattle.bow_core.specs.Inside.{IsKept};

    ghost Value = { Held };

    ghost view = { λ s. record {
      geometry = s.geometry;
      places = s.queue.places;
      admitted = s.queue.admitted;
      memory = record {
        phase = s.phase;
        kinds = R.kinds s.table;
        requests = s.queue.waiting;
        hand = hand_of s.geometry.block_size s.buffer.items s.hand;
        log = option_map (generation_of s.geometry) s.log;
        clean = s.clean;
        trimmed = s.trimmed;
      };
    } };

    ghost invariant = { λ s. IsKept s.geometry (R.kinds s.table) s.queue.blocks s.buffer.items s.block.items s.log
        s.saved };
}

/// So many bytes, all zero.
fn zeros(alloc: Global, count: usize) -> Result<Vec<u8>, NoMemory>
    ensures { IfOk result (λ v. length v.items ≡ count) }
{
    Ok(vec![in alloc; 0; count]?)
}

/// The blocks from this one on, so many.
pub(crate) fn run(first: u64, count: u64) -> Extent
    ensures first { result.first ≡ first }
    ensures count { result.count ≡ count }
{
    Extent { first, count }
}

/// The kind of a block other than 0 after a write of it was tried in place.
fn kind_written(phase: Phase, kind: Kind) -> Kind
    ensures { result ≡ written_kind phase kind }
{
    match (phase, kind) {
        (Phase::Trim, _) => Kind::Unchanged,
        (Phase::Checkpoint, Kind::Free) => Kind::Changed,
        _ => kind,
    }
}

impl<R: Ranges> State<R> {
    /// The memory of a device just opened: nothing is free, waits or is in hand.
    pub(crate) fn open(alloc: Global, geometry: Geometry, places: u32) -> Result<State<R>, NoMemory>
        requires valid { IsValid geometry }
        requires some { 1 ≤ places }
        requires few { places ≤ 16 }
        ensures { IfOk result (λ s. s ≡ record {
          geometry = geometry;
          places = places;
          admitted = 0;
          memory = opened
              geometry.blocks;
        }) }
    {
        let size = geometry.block_size as usize;
        let queue = Queue::open(alloc, places, geometry.blocks)?;
        let buffer = zeros(alloc, MOST_COPIED as usize * size)?;
        let block = zeros(alloc, size)?;
        let mut table = R::open(alloc, geometry.blocks)?;
        table.set(run(0, 1), Kind::Sector0);
        Ok(State {
            geometry,
            phase: Phase::Trim,
            table,
            queue,
            hand: Hand::Empty,
            buffer,
            block,
            log: None,
            clean: false,
            trimmed: 0,
            saved: run(0, 0),
        })
    }

    /// How many more requests it has places for.
    pub(crate) fn spare(&self) -> u32
        ensures { result + length self.now.memory.requests ≡ self.now.places }
    {
        self.queue.spare()
    }

    /// How many requests were taken in.
    pub(crate) fn admitted(&self) -> u64
        ensures { result ≡ self.now.admitted }
    {
        self.queue.admitted()
    }

    /// Takes a request in, none of whose blocks is done.
    pub(crate) fn admit(&mut self, op: Op) -> Ticket
        requires place { length self.old.memory.requests < self.old.places }
        requires number { self.old.admitted < 2 ^ 64 - 1 }
        ensures serial { result.serial ≡ self.old.admitted }
        ensures waits { self.new ≡ record self.old {
          memory = record self.old.memory { requests = self.old.memory.requests ++ fresh_request result op ∷ [] };
          admitted = self.old.admitted + 1;
        } }
    {
        self.queue.admit(op)
    }

    /// The size of a block in bytes.
    pub(crate) fn size(&self) -> usize
        ensures size { result ≡ self.now.geometry.block_size }
        ensures valid { IsValid self.now.geometry }
    {
        self.geometry.block_size as usize
    }

    /// What is shown: the phase, the free blocks, and the sequence number and entries of the log in memory.
    pub(crate) fn status(&self) -> Status
        ensures { result ≡ status_of self.now.memory }
    {
        let phase = self.phase;
        let free = self.table.free_blocks();
        match &self.log {
            Some(log) => Status {
                phase,
                free,
                sequence: log.sequence,
                entries: log.entries.len() as u32,
            },
            None => Status {
                phase,
                free,
                sequence: 0,
                entries: 0,
            },
        }
    }

    /// The log in memory.
    pub(crate) fn log(&self) -> Option<&Log>
        ensures { option_copied result ≡ option_map (fields_of self.now.geometry) self.now.memory.log }
    {
        self.log.as_ref()
    }

    /// Where block 0 lies.
    pub(crate) fn place_of_0(&self) -> u64
        ensures { result ≡ place_of self.now.memory 0 }
    {
        match &self.log {
            Some(log) => log.current(self.geometry),
            None => 0,
        }
    }

    /// Where the content of a block lies.
    pub(crate) fn place_of(&self, block: u64) -> u64
        ensures { result ≡ place_of self.now.memory block }
    {
        if block == 0 { self.place_of_0() } else { block }
    }

    /// A prepare or a commit is in hand.
    pub(crate) fn has_command(&self) -> bool
        ensures { result ≡ has_command self.now.memory.hand }
    {
        matches!(self.hand, Hand::Preparing(_) | Hand::Committing(_))
    }

    /// A batch that moves the current block 0 is in hand.
    fn has_move(&self) -> bool
        ensures { result ≡ has_move self.now.memory.hand }
    {
        match &self.hand {
            Hand::Batching(batch, _) => matches!(batch.job(), Job::Move { .. }),
            _ => false,
        }
    }

    /// A write of the block, which is on the device, needs no worker.
    pub(crate) fn is_direct(&self, block: u64) -> bool
        requires { block < self.now.geometry.blocks }
        ensures { result ≡ is_direct self.now.memory self.now.memory.phase block }
    {
        match self.phase {
            Phase::Trim | Phase::Committed => true,
            Phase::Arming | Phase::Deciding => false,
            Phase::Checkpoint => {
                matches!(self.table.kind(block), Kind::Changed | Kind::Free)
                    || (block == 0 && !self.has_move())
            }
        }
    }

    /// A write of the block was tried in place.
    pub(crate) fn mark_written(&mut self, block: u64)
        requires inside { block < self.old.geometry.blocks }
        requires open { is_saved (kind_at self.old.memory.kinds block) ≡ false }
        ensures { self.new ≡ with_memory self.old (record self.old.memory {
          kinds = kinds_written
              self.old.memory.phase self.old.memory.kinds block;
        }) }
    {
        if block == 0 {
            return;
        }
        let before = self.table.kind(block);
        let kind = kind_written(self.phase, before);
        if kind != before {
            self.table.set(run(block, 1), kind);
        }
    }
}
