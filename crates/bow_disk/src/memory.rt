// A disk in memory.
ghost use Rattle.std.specs.Prelude.{◌≡◌, ◌*◌, ◌++◌, ◌∷◌, [], ℕ, List, length, min, is_err, is_some, nat_lt, slice_index_or, Some, IfOk, OnOk, OnErr};
ghost use Rattle.bow_units.specs.Causes.{HasCause};
ghost use Rattle.bow_disk.specs.Disk.{IsCrash, IsSettledOn, HasBlock, Goes, Same, WriteStep, FlushStep, ReadsAs, TimeGoes, KeepsSizes};
ghost use Rattle.bow_disk.specs.Memory.{IsFit, LeftSince, content, failure, write_failure, read_by, written_by, flushed_by, fresh, asked};
ghost use Rattle.bow_disk.specs.Bytes.{image_of, IsBytesOf};
ghost use Rattle.bow_disk.specs.Cuts.{picked};
ghost use Rattle.bow_disk.specs.Layout.{state_of};

use crate::cuts::Pick;
use crate::device::Disk;
use crate::failing::{FailMode, failure_of};
use crate::history::History;
use bow_units::{Failed, Geometry, NoMemory};
use std::alloc::Global;
use std::marker::Model;

/// A disk in memory, which tells its content. It keeps each write that had its effect, with the number of its call
/// and of the first later flush that succeeded, so that what a cut at any moment since might have left follows from
/// what it holds. Its reads, writes and flushes are numbered from 1. One of them fails exactly where it is listed to
/// fail, comes after the last that may succeed, is a write beyond the room, or comes where the numbers have ended,
/// at 2^64 - 1.
#[derive(Drop)]
pub struct MemDisk {
    history: History,
    calls: u64,
    failing: Vec<(u64, FailMode)>,
    stop: u64,
    faults: u64,
    sizeless: u64,
    ghost fit: { IsFit (state_of history calls failing.items stop faults sizeless) },
}

impl Model for MemDisk {
    ghost use Rattle.bow_disk.specs.Memory.{Memory};
    ghost use Rattle.bow_disk.specs.Layout.{state_of};

    ghost Value = { Memory };

    ghost view = { λ d. record {
      state = state_of d.history d.calls d.failing.items d.stop d.faults d.sizeless;
      fit = d.fit;
    } };
}

impl MemDisk {
    /// A disk of these sizes, which may be ones that no device has. It holds `image`, which has one byte for each of
    /// the disk, and is settled on it: a cut leaves that image alone. No call was made and none failed. It has room for
    /// `writes` writes, for which all memory is taken here. `NoMemory` is answered where there is none.
    pub fn new(
        alloc: Global,
        geometry: Geometry,
        image: Vec<u8>,
        writes: u64,
    ) -> Result<MemDisk, NoMemory>
        requires { length image.items ≡ geometry.blocks * geometry.block_size }
        ensures fresh { IfOk result (λ d. d.state ≡ fresh geometry (image_of geometry image.items) writes) }
        ensures settled { IfOk result (λ d. IsSettledOn (image_of geometry image.items) (content d.state)) }
    {
        Ok(MemDisk {
            history: History::new(alloc, geometry, image, writes)?,
            calls: 0,
            failing: Vec::new(alloc),
            stop: u64::MAX,
            faults: 0,
            sizeless: 0,
        })
    }

    /// Call number `call`, of the reads, writes and flushes from 1 on, fails, and leaves what `mode` says. Where a call
    /// is listed more than once the latest listing decides. `NoMemory` is answered where there is none, and then
    /// nothing is listed.
    pub fn fail_at(&mut self, call: u64, mode: FailMode) -> Result<(), NoMemory>
        ensures ok { OnOk result
            (self.new.state ≡ record self.old.state { failing = self.old.state.failing ++ (call, mode) ∷ [] }) }
        ensures err { OnErr result (self.new.state ≡ self.old.state) }
    {
        self.failing.push((call, mode))?;
        Ok(())
    }

    /// Each call after so many fails as `FailMode::Lost`, also where it is listed. A later call of this can't lift it.
    pub fn stop_after(&mut self, calls: u64)
        ensures { self.new.state ≡ record self.old.state { stop = min self.old.state.stop calls } }
    {
        self.stop = self.stop.min(calls);
    }

    /// The next `count` questions for the sizes fail, and change nothing but the count of faults.
    pub fn fail_sizes(&mut self, count: u64)
        ensures { self.new.state ≡ record self.old.state { sizeless = count } }
    {
        self.sizeless = count;
    }

    /// How many reads, writes and flushes were made.
    pub fn calls(&self) -> u64
        ensures { result ≡ self.now.state.calls }
    {
        self.calls
    }

    /// What it holds now, block after block. `NoMemory` is answered where there is none.
    pub fn image(&self, alloc: Global) -> Result<Vec<u8>, NoMemory>
        ensures { IfOk result (λ v. IsBytesOf self.now.state.geometry (content self.now.state).now v.items) }
    {
        self.history.image(alloc)
    }

    /// One of the images that a cut may leave now, block after block. `NoMemory` is answered where there is none.
    pub fn cut(&self, alloc: Global, pick: Pick) -> Result<Vec<u8>, NoMemory>
        ensures picked { IfOk result (λ v. IsBytesOf self.now.state.geometry
            (picked pick (content self.now.state).candidates) v.items) }
        ensures crash { IfOk result (λ v. IsCrash (content self.now.state).candidates
            (image_of self.now.state.geometry v.items)) }
    {
        self.history.cut(alloc, pick)
    }

    fn try_read(&mut self, at: u64, into: &mut [u8]) -> Result<(), Failed>
        requires { HasBlock (Some self.old.state.geometry) at (length into.old) }
        ensures fails { is_err result ≡ is_some (failure self.old.state) }
        ensures state { self.new.state ≡ read_by (failure self.old.state) self.old.state }
        ensures gives { OnOk result (into.new ≡ slice_index_or (content self.old.state).now at []) }
        ensures keeps { OnErr result (into.new ≡ into.old) }
    {
        let failure = failure_of(&self.failing, self.stop, self.calls);
        if failure.is_some() {
            self.calls = self.calls.saturating_add(1);
            self.faults = self.faults.saturating_add(1);
            return Err(Failed);
        }
        self.history.read(at, into);
        self.calls = self.calls.saturating_add(1);
        Ok(())
    }
}

impl MemDisk {
    fn try_write(&mut self, at: u64, from: &[u8]) -> Result<(), Failed>
        requires { HasBlock (Some self.old.state.geometry) at (length from.now) }
        ensures fails { is_err result ≡ is_some (write_failure self.old.state) }
        ensures state { self.new.state ≡ written_by (write_failure self.old.state) at from.now self.old.state }
    {
        let failure = if self.history.is_full() {
            Some(FailMode::Lost)
        } else {
            failure_of(&self.failing, self.stop, self.calls)
        };
        if failure == Some(FailMode::Lost) {
            self.calls = self.calls.saturating_add(1);
            self.faults = self.faults.saturating_add(1);
            return Err(Failed);
        }
        self.calls = self.calls.saturating_add(1);
        self.history.write(self.calls, at, from);
        if failure.is_some() {
            self.faults = self.faults.saturating_add(1);
            return Err(Failed);
        }
        Ok(())
    }

    fn try_flush(&mut self) -> Result<(), Failed>
        ensures fails { is_err result ≡ is_some (failure self.old.state) }
        ensures state { self.new.state ≡ flushed_by (failure self.old.state) self.old.state }
    {
        let failure = failure_of(&self.failing, self.stop, self.calls);
        self.calls = self.calls.saturating_add(1);
        if failure.is_some() {
            self.faults = self.faults.saturating_add(1);
            return Err(Failed);
        }
        self.history.flush(self.calls);
        Ok(())
    }
}

impl Disk for MemDisk {
    ghost use Rattle.std.specs.Prelude.{Some};
    ghost use Rattle.bow_disk.specs.Memory.{content, LeftSince};
    ghost use Rattle.bow_disk.specs.MemoryLaws.{shaped_law, cuts_law, counts_law, only_law};

    ghost stated = { λ d. Some d.state.geometry };

    ghost content = { λ d. Some (content d.state) };

    ghost moment = { λ d. d.state.calls };

    ghost left_since = { λ d t image. LeftSince d.state t image };

    ghost faults = { λ d. d.state.faults };

    fn sizes(&mut self) -> Result<Geometry, Failed>
        ensures gives { IfOk result (λ g. g ≡ self.old.state.geometry) }
        ensures always { KeepsSizes (Some self.old.state.geometry) (Some self.new.state.geometry) }
        ensures step { Same (content self.old.state) (content self.new.state) }
        ensures count { self.new.state.calls ≡ self.old.state.calls }
        ensures past { (t : ℕ) (c : List (List ℕ)) → LeftSince self.new.state t c → LeftSince self.old.state t c }
        ensures keeps { (t : ℕ) (c : List (List ℕ)) → LeftSince self.old.state t c → LeftSince self.new.state t c }
        ensures cause { HasCause self.old.state.faults self.new.state.faults result }

        // It fails exactly where it was told to.
        ensures fails { is_err result ≡ nat_lt 0 self.old.state.sizeless }
        ensures state { self.new.state ≡ asked self.old.state }
    {
        if self.sizeless > 0 {
            self.sizeless -= 1;
            self.faults = self.faults.saturating_add(1);
            return Err(Failed);
        }
        Ok(self.history.geometry())
    }

    fn read(&mut self, at: u64, into: &mut [u8]) -> Result<(), Failed>
        requires { HasBlock (Some self.old.state.geometry) at (length into.old) }
        ensures gives { OnOk result (ReadsAs at into.new (content self.old.state)) }
        ensures always { KeepsSizes (Some self.old.state.geometry) (Some self.new.state.geometry) }
        ensures step { Same (content self.old.state) (content self.new.state) }
        ensures time { TimeGoes (Some (content self.new.state)) self.old.state.calls self.new.state.calls
            (LeftSince self.old.state) (LeftSince self.new.state) }
        ensures cause { HasCause self.old.state.faults self.new.state.faults result }

        // It fails exactly there, and then changes nothing but the counts.
        ensures fails { is_err result ≡ is_some (failure self.old.state) }
        ensures state { self.new.state ≡ read_by (failure self.old.state) self.old.state }
        ensures keeps { OnErr result (into.new ≡ into.old) }
    {
        self.try_read(at, into)
    }

    fn write(&mut self, at: u64, from: &[u8]) -> Result<(), Failed>
        requires { HasBlock (Some self.old.state.geometry) at (length from.now) }
        ensures always { KeepsSizes (Some self.old.state.geometry) (Some self.new.state.geometry) }
        ensures step { WriteStep result at from.now (content self.old.state) (content self.new.state) }
        ensures time { TimeGoes (Some (content self.new.state)) self.old.state.calls self.new.state.calls
            (LeftSince self.old.state) (LeftSince self.new.state) }
        ensures cause { HasCause self.old.state.faults self.new.state.faults result }

        // It fails exactly there, and then has its effect where it is listed as Kept.
        ensures fails { is_err result ≡ is_some (write_failure self.old.state) }
        ensures state { self.new.state ≡ written_by (write_failure self.old.state) at from.now self.old.state }
    {
        self.try_write(at, from)
    }

    fn flush(&mut self) -> Result<(), Failed>
        ensures always { KeepsSizes (Some self.old.state.geometry) (Some self.new.state.geometry) }
        ensures step { FlushStep result (content self.old.state) (content self.new.state) }
        ensures time { TimeGoes (Some (content self.new.state)) self.old.state.calls self.new.state.calls
            (LeftSince self.old.state) (LeftSince self.new.state) }
        ensures cause { HasCause self.old.state.faults self.new.state.faults result }

        // It fails exactly there, and then changes nothing but the counts.
        ensures fails { is_err result ≡ is_some (failure self.old.state) }
        ensures state { self.new.state ≡ flushed_by (failure self.old.state) self.old.state }
    {
        self.try_flush()
    }

    ghost shaped = { shaped_law };

    ghost cuts_shaped = { cuts_law };

    ghost counts_now = { counts_law };

    ghost only_now = { only_law };
}
