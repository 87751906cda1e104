// A disk over a file.
ghost use Rattle.std.specs.Prelude.{◌≡◌, ◌<◌, ◌≤◌, ◌*◌, ◌/◌, ◌^◌, ℕ, List, None, Some, IfOk};
ghost use Rattle.std.specs.Option.{ForSome};
ghost use Rattle.bow_units.specs.Causes.{HasCause};
ghost use Rattle.bow_disk.specs.Disk.{HasBlock, KeepsSizes};
ghost use Rattle.bow_disk.specs.Files.{HasPlaces, IsOfBlocks};

use crate::Disk;
use bow_units::{Failed, Geometry};
use std::fs::{OpenFile, OpenOptions};
use std::io::{self, Read, Seek, SeekFrom, Write};
use std::marker::Model;
use std::rt::Files;

/// A disk over a file, which is opened at its first call. It has as many blocks as stand whole in the file; a rest
/// that is no whole block is never touched. It tells no content. A call fails where the system refuses, where the
/// file ends early, or where std finds no memory for it.
#[derive(Drop)]
pub struct FileDisk<H: Files + Clone + Drop> {
    rt: H,
    path: String,
    block_size: u32,
    file: Option<H::File>,
    sizes: Option<Geometry>,
    faults: u64,
}

impl<H: Files + Clone + Drop> Model for FileDisk<H> {
    ghost use Rattle.std.specs.Option.{ForSome};
    ghost use Rattle.bow_disk.specs.Files.{FileState, IsOfBlocks};

    ghost Value = { FileState };

    ghost view = { λ d. record { block_size = d.block_size; sizes = d.sizes; faults = d.faults } };

    ghost invariant = { λ d. ForSome d.sizes (IsOfBlocks d.block_size) };
}

impl<H: Files + Clone + Drop> FileDisk<H> {
    /// A disk over the file at `path`, in blocks of `block_size` bytes. Nothing is opened yet: a file that is missing
    /// is a fault of the first call.
    pub fn new(rt: H, path: String, block_size: u32) -> FileDisk<H>
        ensures { result ≡ record { block_size = block_size; sizes = None; faults = 0 } }
    {
        FileDisk {
            rt,
            path,
            block_size,
            file: None,
            sizes: None,
            faults: 0,
        }
    }
}

// The open file, which is opened where it was not.
fn opened<'a, H: Files>(
    rt: &H,
    path: &String,
    file: &'a mut Option<H::File>,
) -> io::Result<&'a mut H::File> {
    if file.is_none() {
        *file = Some(OpenOptions::new().read(true).write(true).open(rt, path)?);
    }
    match file {
        Some(file) => Ok(file),
        None => Err(io::ErrorKind::Other.into()),
    }
}

fn length_of<H: Files>(rt: &H, path: &String, file: &mut Option<H::File>) -> io::Result<u64> {
    Ok(opened(rt, path, file)?.metadata()?.len())
}

fn read_at<F: Read + Seek>(file: &mut F, offset: u64, into: &mut [u8]) -> io::Result<()> {
    file.seek(SeekFrom::Start(offset))?;
    file.read_exact(into)
}

fn write_at<F: Write + Seek>(file: &mut F, offset: u64, from: &[u8]) -> io::Result<()> {
    file.seek(SeekFrom::Start(offset))?;
    file.write_all(from)
}

// As many blocks as stand whole in so many bytes.
fn whole_blocks(block_size: u32, bytes: u64) -> Geometry
    ensures of { IsOfBlocks block_size result }
    ensures whole { result.blocks ≡ bytes / block_size }
{
    Geometry {
        block_size,
        blocks: bytes.checked_div(block_size as u64).unwrap_or(0),
    }
}

// Where a block of so many bytes begins in the file.
fn place(sizes: Option<Geometry>, at: u64, size: usize) -> u64
    requires has { ForSome sizes HasPlaces }
    requires within { HasBlock sizes at size }
    ensures { result ≡ at * size }
{
    at * size as u64
}

// Counts a failure.
fn counted<T: Drop>(faults: &mut u64, done: io::Result<T>) -> Result<T, Failed>
    ensures { HasCause faults.old faults.new result }
{
    match done {
        Ok(value) => Ok(value),
        Err(_) => {
            *faults = faults.saturating_add(1);
            Err(Failed)
        }
    }
}

impl<H: Files + Clone + Drop> Disk for FileDisk<H> {
    ghost use Rattle.std.specs.Prelude.{None};
    ghost use Rattle.bow_disk.specs.Files.{nothing};

    ghost stated = { λ d. d.sizes };

    ghost content = { λ d. None };

    ghost moment = { λ d. 0 };

    ghost left_since = { λ d t image. ⊥ };

    ghost faults = { λ d. d.faults };

    // The size of a block is the one that it was given.
    fn sizes(&mut self) -> Result<Geometry, Failed>
        ensures gives { IfOk result (λ g. self.new.sizes ≡ Some g) }
        ensures always { KeepsSizes self.old.sizes self.new.sizes }
        ensures cause { HasCause self.old.faults self.new.faults result }
        ensures given { IfOk result (λ g. g.block_size ≡ self.old.block_size) }
    {
        if let Some(sizes) = self.sizes {
            return Ok(sizes);
        }
        let found = length_of(&self.rt, &self.path, &mut self.file);
        let bytes = counted(&mut self.faults, found)?;
        let sizes = whole_blocks(self.block_size, bytes);
        self.sizes = Some(sizes);
        Ok(sizes)
    }

    fn read(&mut self, at: u64, into: &mut [u8]) -> Result<(), Failed> {
        let offset = place(self.sizes, at, into.len());
        let file = counted(
            &mut self.faults,
            opened(&self.rt, &self.path, &mut self.file),
        )?;
        counted(&mut self.faults, read_at(file, offset, into))
    }

    fn write(&mut self, at: u64, from: &[u8]) -> Result<(), Failed> {
        let offset = place(self.sizes, at, from.len());
        let file = counted(
            &mut self.faults,
            opened(&self.rt, &self.path, &mut self.file),
        )?;
        counted(&mut self.faults, write_at(file, offset, from))
    }

    fn flush(&mut self) -> Result<(), Failed> {
        let file = counted(
            &mut self.faults,
            opened(&self.rt, &self.path, &mut self.file),
        )?;
        counted(&mut self.faults, file.sync_data())
    }

    ghost shaped = { λ d c is. absurd (nothing c is) };

    ghost cuts_shaped = { λ d c is. absurd (nothing c is) };

    ghost counts_now = { λ d c is. absurd (nothing c is) };

    ghost only_now = { λ d c is. absurd (nothing c is) };
}
