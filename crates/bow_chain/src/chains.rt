// A chain of logs in memory.
ghost use Rattle.std.specs.Prelude.{◌≡◌, ◌<◌, length, map, Some, OnOk, MatchOption};
ghost use Rattle.bow_units.specs.Causes.{HasCause};
ghost use Rattle.bow_log.specs.Generations.{fields_of};
ghost use Rattle.bow_disk.specs.Disk.{Goes, Same, ReadsAs};
ghost use Rattle.bow_chain.specs.Contents.{OfImage};
ghost use Rattle.bow_chain.specs.Places.{base};
ghost use Rattle.bow_chain.specs.Kept.{kept};
ghost use Rattle.bow_disk.specs.Moments.{AddsNoCut};
ghost use Rattle.bow_chain.specs.Chains.{AreWhole, generations_of};

use bow_disk::Disk;
use bow_log::Log;
use bow_units::{Failed, Geometry};
use std::marker::Model;

/// The logs of an image, from the one in block 0 back to the first. Contracts see the sizes of the device and the
/// generations, the newest first. Its memory is that of the logs, and one number for each block of the device: where
/// the content lies that the block had at the checkpoint.
#[derive(Drop)]
pub struct Chain {
    pub(crate) geometry: Geometry,
    pub(crate) logs: Vec<Log>,
    pub(crate) places: Vec<u32>,
}

impl Model for Chain {
    ghost use Rattle.bow_chain.specs.Chains.{Loaded, ArePlaced, generations_of};

    ghost Value = { Loaded };

    ghost view = { λ c. record { geometry = c.geometry; generations = generations_of c.geometry c.logs.items } };

    ghost invariant = { λ c. ArePlaced c.geometry c.logs.items c.places.items };
}

impl Chain {
    /// The sizes of the device with which the chain was loaded.
    pub fn geometry(&self) -> Geometry
        ensures { result ≡ self.now.geometry }
    {
        self.geometry
    }

    /// The logs, the newest first. There is one at least, and each has as its sequence how many are behind it.
    pub fn generations(&self) -> &[Log]
        ensures fields { result.now ≡ map (fields_of self.now.geometry) self.now.generations }
        ensures generations { self.now.generations ≡ generations_of self.now.geometry result.now }
        ensures whole { AreWhole self.now.geometry result.now }
    {
        &self.logs
    }

    /// The block where the content lies that `block` had at the checkpoint. The block is on the device.
    pub fn place(&self, block: u64) -> u64
        requires { block < self.now.geometry.blocks }
        ensures base { result ≡ base self.now.generations block }
        ensures on { result < self.now.geometry.blocks }
    {
        self.places[block as usize] as u64
    }

    /// Puts the content that `block` had at the checkpoint into `into`, while the disk holds the image of which the
    /// chain was loaded. The block is on the device, `into` is as long as a block, and the disk has the sizes with
    /// which the chain was loaded. `Failed` comes only where the disk's count of faults rose. It makes one read.
    pub fn kept<D: Disk>(&self, disk: &mut D, block: u64, into: &mut [u8]) -> Result<(), Failed>
        requires sizes { D.stated disk.old ≡ Some self.now.geometry }
        requires on { block < self.now.geometry.blocks }
        requires one { length into.old ≡ self.now.geometry.block_size }
        ensures gives { OfImage (D.content disk.old)
            (λ image. OnOk result (into.new ≡ kept image self.now.generations block)) }
        ensures sizes { D.stated disk.new ≡ Some self.now.geometry }
        ensures step { Goes Same (D.content disk.old) (D.content disk.new) }
        ensures cuts { AddsNoCut D.content D.moment D.left_since disk.old disk.new }
        ensures cause { HasCause (D.faults disk.old) (D.faults disk.new) result }
    {
        disk.read(self.place(block), into)
    }
}
