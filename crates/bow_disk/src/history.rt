// What a disk in memory keeps of its writes: the image that it was made of, the bytes that it holds now, and each
// write that had its effect, with the number of its call and of the first later flush that succeeded.
ghost use Rattle.std.specs.Prelude.{◌≡◌, ◌+◌, ◌-◌, ◌*◌, ◌^◌, ◌<◌, ◌≤◌, ℕ, [], ◌∷◌, ◌++◌, length, map, take, drop, nat_le, None, slice_index, slice_index_or, slice_set, vec_len, vec_capacity, IfOk};
ghost use Rattle.std.specs.List.{All};
ghost use Rattle.bow_disk.specs.Memory.{latest, flush_change};
ghost use Rattle.bow_disk.specs.Bytes.{image_of, IsBytesOf};
ghost use Rattle.bow_disk.specs.Layout.{flush_mark};
ghost use Rattle.bow_disk.specs.Cuts.{choices, picked};
ghost use Rattle.bow_disk.specs.Picking.{candidates_after, next_number, last_number, with_picked};

use crate::cuts::{Pick, Picker};
use bow_units::{Geometry, NoMemory};
use std::alloc::{AllocError, Global};
use std::marker::Model;

// A write that had its effect. Its value stands at its place among the values.
#[derive(Clone, Copy)]
pub(crate) struct Mark {
    pub(crate) call: u64,
    pub(crate) block: u64,
    pub(crate) flushed: Option<u64>,
}

#[derive(Drop)]
pub(crate) struct History {
    geometry: Geometry,
    first: Vec<u8>,
    bytes: Vec<u8>,
    marks: Vec<Mark>,
    values: Vec<u8>,
    room: u64,
    // How many of the marks the last flush left flushed: the first ones
    settled: usize,
}

impl Model for History {
    ghost use Rattle.std.specs.Prelude.{vec_capacity};
    ghost use Rattle.bow_disk.specs.Bytes.{image_of};
    ghost use Rattle.bow_disk.specs.Layout.{Past, changes, IsLaidOut};

    ghost Value = { Past };

    ghost view = { λ h. record {
      geometry = h.geometry;
      first = image_of h.geometry h.first.items;
      writes = changes h.geometry.block_size h.marks.items h.values.items;
      room = h.room;
    } };

    ghost invariant = { λ h. IsLaidOut h.geometry h.first.items h.bytes.items h.marks.items h.values.items h.room
        h.settled (vec_capacity h.marks) (vec_capacity h.values) };
}

impl History {
    // All memory for so many writes is taken here.
    pub(crate) fn new(
        alloc: Global,
        geometry: Geometry,
        image: Vec<u8>,
        room: u64,
    ) -> Result<History, NoMemory>
        requires { length image.items ≡ geometry.blocks * geometry.block_size }
        ensures { IfOk result (λ h. h ≡ record {
          geometry = geometry;
          first = image_of geometry image.items;
          writes = [];
          room = room;
        }) }
    {
        let size = geometry.block_size as usize;
        let Some(total) = (room as usize).checked_mul(size) else {
            return Err(NoMemory);
        };
        Ok(History {
            geometry,
            first: image.to_vec(alloc)?,
            bytes: image,
            marks: Vec::with_capacity(alloc, room as usize)?,
            values: Vec::with_capacity(alloc, total)?,
            room,
            settled: 0,
        })
    }

    pub(crate) fn geometry(&self) -> Geometry
        ensures { result ≡ self.now.geometry }
    {
        self.geometry
    }

    // Whether there is no room for one more write.
    pub(crate) fn is_full(&self) -> bool
        ensures { result ≡ nat_le self.now.room (length self.now.writes) }
    {
        self.room <= self.marks.len() as u64
    }

    pub(crate) fn read(&self, at: u64, into: &mut [u8])
        requires within { at < self.now.geometry.blocks }
        requires whole { length into.old ≡ self.now.geometry.block_size }
        ensures { into.new ≡ slice_index_or (latest self.now.first self.now.writes) at [] }
    {
        let size = self.geometry.block_size as usize;
        let start = at as usize * size;
        into.copy_from_slice(&self.bytes[start..start + size]);
    }

    // Writes a block, by this call.
    pub(crate) fn write(&mut self, call: u64, at: u64, from: &[u8])
        requires spare { length self.old.writes < self.old.room }
        requires within { at < self.old.geometry.blocks }
        requires whole { length from.now ≡ self.old.geometry.block_size }
        ensures { self.new ≡ record self.old {
          writes = self.old.writes
              ++ record { call = call; block = at; value = from.now; flushed = None } ∷ [];
        } }
    {
        let start = at as usize * self.geometry.block_size as usize;
        self.marks.push_reserved(Mark {
            call,
            block: at,
            flushed: None,
        });
        append(&mut self.values, from);
        put(&mut self.bytes, start, from);
    }

    // Flushes each write that was not, by this call.
    pub(crate) fn flush(&mut self, call: u64)
        ensures { self.new ≡ record self.old { writes = map (flush_change call) self.old.writes } }
    {
        flush_marks(&mut self.marks, self.settled, call);
        self.settled = self.marks.len();
    }

    // The image now.
    pub(crate) fn image(&self, alloc: Global) -> Result<Vec<u8>, NoMemory>
        ensures { IfOk result (λ v. IsBytesOf self.now.geometry (latest self.now.first self.now.writes) v.items) }
    {
        Ok(self.bytes.to_vec(alloc)?)
    }
}

impl History {
    // One of the images that a cut may leave. It goes over the writes twice: first for how many candidates each block
    // has, and then for the values of those that are picked.
    pub(crate) fn cut(&self, alloc: Global, pick: Pick) -> Result<Vec<u8>, NoMemory>
        ensures { IfOk result (λ v. IsBytesOf self.now.geometry
            (picked pick (candidates_after self.now.first self.now.writes)) v.items) }
    {
        let blocks = self.geometry.blocks as usize;
        let size = self.geometry.block_size as usize;
        let mut picks = last_candidates(alloc, &self.marks, blocks)?;
        choose_each(pick, &mut picks);
        let mut numbers = vec![in alloc; 0usize; blocks]?;
        let mut image = self.first.to_vec(alloc)?;
        for write in 0..self.marks.len() {
            let value = &self.values[write * size..write * size + size];
            take_in(&mut image, &mut numbers, &picks, self.marks[write], value);
        }
        Ok(image)
    }
}

// Numbers the candidate that a write makes, of those of its block: the first where it was flushed, else the next.
fn number(numbers: &mut Vec<usize>, mark: Mark) -> usize
    requires on { mark.block < length numbers.old.items }
    requires few { slice_index numbers.old.items mark.block < 2 ^ 64 - 1 }
    ensures is { result ≡ next_number mark.flushed (slice_index numbers.old.items mark.block) }
    ensures numbers { numbers.new.items ≡ slice_set numbers.old.items mark.block result }
{
    let block = mark.block as usize;
    let next = if mark.flushed.is_some() {
        0
    } else {
        numbers[block] + 1
    };
    numbers[block] = next;
    next
}

// The number of the last candidate of each block.
fn last_candidates(alloc: Global, marks: &[Mark], blocks: usize) -> Result<Vec<usize>, AllocError>
    requires { All (λ m. m.block < blocks) marks.now }
    ensures long { IfOk result (λ v. length v.items ≡ blocks) }
    ensures each { IfOk result (λ v. (b : ℕ) → b < blocks → slice_index v.items b ≡ last_number b 0 marks.now) }
{
    let mut numbers = vec![in alloc; 0usize; blocks]?;
    for write in 0..marks.len() {
        number(&mut numbers, marks[write]);
    }
    Ok(numbers)
}

// Picks a candidate of each block, of which the number of the last one stands there.
fn choose_each(pick: Pick, lasts: &mut Vec<usize>)
    ensures { lasts.new.items ≡ choices pick lasts.old.items }
{
    let mut picker = Picker::new(pick);
    for block in 0..lasts.len() {
        lasts[block] = picker.choose(lasts[block]);
    }
}

// Puts the value of a write into a cut image where its candidate is the one that is picked.
fn take_in(image: &mut Vec<u8>, numbers: &mut Vec<usize>, picks: &[usize], mark: Mark, value: &[u8])
    requires on { mark.block < length picks.now }
    requires counted { length numbers.old.items ≡ length picks.now }
    requires whole { length image.old.items ≡ length picks.now * length value.now }
    requires few { slice_index numbers.old.items mark.block < 2 ^ 64 - 1 }
    ensures numbers { numbers.new.items ≡ slice_set numbers.old.items mark.block
        (next_number mark.flushed (slice_index numbers.old.items mark.block)) }
    ensures image { image.new.items ≡ with_picked (slice_index picks.now mark.block)
        (next_number mark.flushed (slice_index numbers.old.items mark.block)) mark.block value.now image.old.items }
{
    let next = number(numbers, mark);
    let block = mark.block as usize;
    if next == picks[block] {
        put(image, block * value.len(), value);
    }
}

// Appends bytes for which there is room.
fn append(values: &mut Vec<u8>, from: &[u8])
    requires { vec_len values.old + length from.now ≤ vec_capacity values.old }
    ensures items { values.new.items ≡ values.old.items ++ from.now }
    ensures capacity { vec_capacity values.old ≤ vec_capacity values.new }
{
    let done = values.extend_from_slice(from).is_ok();
    prove!(done);
}

// Writes bytes over those at a place.
fn put(bytes: &mut Vec<u8>, at: usize, from: &[u8])
    requires { at + length from.now ≤ length bytes.old.items }
    ensures { bytes.new.items ≡ take at bytes.old.items ++ (from.now ++ drop (at + length from.now) bytes.old.items) }
{
    bytes[at..at + from.len()].copy_from_slice(from);
}

// Flushes the marks from a place on.
fn flush_marks(marks: &mut Vec<Mark>, from: usize, call: u64)
    requires { from ≤ length marks.old.items }
    ensures items { marks.new.items ≡ take from marks.old.items ++ map (flush_mark call) (drop from marks.old.items) }
    ensures capacity { vec_capacity marks.new ≡ vec_capacity marks.old }
{
    flush_each(&mut marks[from..], call);
}

fn flush_each(marks: &mut [Mark], call: u64)
    ensures { marks.new ≡ map (flush_mark call) marks.old }
{
    for mark in marks.iter_mut() {
        *mark = flushed_mark(*mark, call);
    }
}

fn flushed_mark(mark: Mark, call: u64) -> Mark
    ensures { result ≡ flush_mark call mark }
{
    Mark {
        flushed: Some(mark.flushed.unwrap_or(call)),
        ..mark
    }
}
