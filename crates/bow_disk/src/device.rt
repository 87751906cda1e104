// A disk as the core sees it.
ghost use Rattle.std.specs.Prelude.{◌≡◌, ◌<◌, ◌≤◌, ℕ, List, length, Option, Some, IfOk, OnOk, MatchOption};
ghost use Rattle.bow_units.specs.Causes.{HasCause};
ghost use Rattle.bow_units.specs.declared.sizes.Geometry.{Geometry};
ghost use Rattle.bow_disk.specs.Disk.{Content, IsCrash, Goes, Same, WriteStep, FlushStep, ReadsAs, IsImage, IsShaped, TimeGoes, KeepsSizes, HasBlock, SettledLaw, ImagesLaw};

use bow_units::{Failed, Geometry};

/// A device of equal blocks, numbered from 0, which is read and written by whole blocks and may lose its power
/// at any moment. A block that was written since the last flush that succeeded may then hold, whichever call the
/// power is lost in, any of the values that it had since that flush: these are its *candidates*, in order of
/// writing, and the cut takes one of each block's, independently. Blocks reach the device whole, flushed ones stay,
/// and nobody else writes it.
///
/// A disk may tell its content, as one in memory does, or tell none, as a file: no call changes that. It has a count
/// of faults, a `u64` that never falls and rises at each call that fails, but stays at its last value, 2^64 - 1.
pub trait Disk {
    /// The sizes that it states, once they are known. They may be invalid.
    ghost stated: { Self → Option Geometry };

    /// What it holds, where it tells that.
    ghost content: { Self → Option Content };

    /// How many reads, writes and flushes were made, up to 2^64 - 1.
    ghost moment: { Self → ℕ };

    /// What a cut at some moment from that one on might have left: before, during or after each call made since.
    ghost left_since: { Self → ℕ → List (List ℕ) → Type 0 };

    /// How often a call has failed.
    ghost faults: { Self → ℕ };

    /// The size of a block in bytes and the number of blocks. Each call that succeeds gives the same numbers, which
    /// may be invalid, and no call changes the content. `Failed` comes only where the count of faults rose.
    fn sizes(&mut self) -> Result<Geometry, Failed>
        ensures gives { IfOk result (λ g. stated self.new ≡ Some g) }
        ensures always { KeepsSizes (stated self.old) (stated self.new) }
        ensures step { Goes Same (content self.old) (content self.new) }
        ensures count { moment self.new ≡ moment self.old }
        ensures past { (t : ℕ) (c : List (List ℕ)) → left_since self.new t c → left_since self.old t c }
        ensures keeps { (t : ℕ) (c : List (List ℕ)) → left_since self.old t c → left_since self.new t c }
        ensures cause { HasCause (faults self.old) (faults self.new) result };

    /// Puts what block `at` holds into `into`. The block is on the device, and `into` is as long as a block.
    /// `Failed` comes only where the count of faults rose. A read changes nothing.
    fn read(&mut self, at: u64, into: &mut [u8]) -> Result<(), Failed>
        requires { HasBlock (stated self.old) at (length into.old) }
        ensures gives { OnOk result (MatchOption (content self.old) (Unit {0}) (ReadsAs at into.new)) }
        ensures always { KeepsSizes (stated self.old) (stated self.new) }
        ensures step { Goes Same (content self.old) (content self.new) }
        ensures time { TimeGoes (content self.new) (moment self.old) (moment self.new) (left_since self.old)
            (left_since self.new) }
        ensures cause { HasCause (faults self.old) (faults self.new) result };

    /// Writes `from` to block `at`. The block is on the device, and `from` is as long as a block. After `Ok` the block
    /// holds `from`, which is the last of its candidates. `Failed` comes only where the count of faults rose: the
    /// block then holds what it held or `from`, and its candidates are the same, or these and `from`.
    fn write(&mut self, at: u64, from: &[u8]) -> Result<(), Failed>
        requires { HasBlock (stated self.old) at (length from.now) }
        ensures always { KeepsSizes (stated self.old) (stated self.new) }
        ensures step { Goes (WriteStep result at from.now) (content self.old) (content self.new) }
        ensures time { TimeGoes (content self.new) (moment self.old) (moment self.new) (left_since self.old)
            (left_since self.new) }
        ensures cause { HasCause (faults self.old) (faults self.new) result };

    /// After `Ok` each block has what it holds as its one candidate. `Failed` comes only where the count of faults
    /// rose, and changes nothing.
    fn flush(&mut self) -> Result<(), Failed>
        ensures always { KeepsSizes (stated self.old) (stated self.new) }
        ensures step { Goes (FlushStep result) (content self.old) (content self.new) }
        ensures time { TimeGoes (content self.new) (moment self.old) (moment self.new) (left_since self.old)
            (left_since self.new) }
        ensures cause { HasCause (faults self.old) (faults self.new) result };

    /// What it tells has the sizes that it states.
    ghost shaped: { (d : Self) (c : Content) → content d ≡ Some c → (g : Geometry) → stated d ≡ Some g
        → IsShaped g.block_size g.blocks c };

    /// Whatever a cut at some moment left is an image of the sizes that it states.
    ghost cuts_shaped: { (d : Self) (c : Content) → content d ≡ Some c → (g : Geometry) → stated d ≡ Some g
        → (t : ℕ) (image : List (List ℕ)) → left_since d t image → IsImage g.block_size g.blocks image };

    /// This moment is one of those since an earlier one.
    ghost counts_now: { (d : Self) (c : Content) → content d ≡ Some c → (t : ℕ) (image : List (List ℕ))
        → t ≤ moment d → IsCrash c.candidates image → left_since d t image };

    /// From this moment on there is no other, whatever the clock says: it may stand at its last value.
    ghost only_now: { (d : Self) (c : Content) → content d ≡ Some c → (t : ℕ) (image : List (List ℕ)) → moment d ≤ t
        → left_since d t image → IsCrash c.candidates image };
}

/// A law on disks: a cut of a disk that is settled on an image leaves that image, and no other.
pub fn settled_law()
    ensures { SettledLaw }
{}

/// A law on disks: what a disk holds is an image of its sizes, each block a list of so many bytes, and so is whatever
/// a cut leaves of it.
pub fn images_law()
    ensures { ImagesLaw }
{}
