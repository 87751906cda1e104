// Devices in a pair, from joining them to giving their disks back.
ghost use Rattle.std.specs.Prelude.{◌≡◌, ◌<◌, ◌≤◌, ℕ, List, [], length, slice_get, IfErr, IfOk, OnErr, Ok, Option, Some, None, option_copied};
ghost use Rattle.bow_core.specs.Views.{View};
ghost use Rattle.bow_deal.specs.Dealing.{later_part, opening_part};
ghost use Rattle.bow_pair.specs.Joining.{AreOpenedOver, JoinsNot};
ghost use Rattle.bow_pair.specs.Deciding.{AgreesBy, AreAtRest, IsDecidedCaused, NoneFell, TakePart, disks_of};
ghost use Rattle.bow_pair.specs.Joint.{IsJointCut, Member};
ghost use Rattle.bow_pair.specs.Pairs.{AreReady, MayBeDealt, WerePrepared, data_in, journal_in, part_of};
ghost use Rattle.bow_pair.specs.Playing.{HavePlayed};
ghost use Rattle.bow_pair.specs.Preparing.{AnswersPrepared, AnswersRan};
ghost use Rattle.bow_pair.specs.declared.deciding.Decided.TheVariants.{NotCommitted};
ghost use Rattle.bow_pair.specs.declared.pairs.Prepared.TheVariants.{All as AllPrepared};
ghost use Rattle.bow_pair.specs.declared.pairs.Ran.TheVariants.{Clean};

use crate::accounts::{how_prepared, how_ran};
use crate::deciding::{Decided, decide};
use crate::joining::{PairFault, close_onto, open_each, put_onto};
use crate::playing::{Round, play};
use bow_core::Core;
use bow_disk::Disk;
use bow_history::Item;
use bow_ranges::Ranges;
use bow_script::Script;
use bow_session::Part;
use bow_units::{Draws, Geometry, NoMemory};
use std::alloc::Global;
use std::marker::Model;
use vold_meta::Keeper;

/// How the first sessions ended.
#[derive(Clone, Copy, Debug, PartialEq, Eq)]
pub enum Prepared {
    /// Each prepare was answered `Done`, and no journal tells a fault of the disk: each device is in its checkpoint.
    All,
    /// This device is the first whose prepare was not answered `Done`, or whose journal tells a fault of the disk.
    NotAll { device: u32 },
}

/// How the second sessions ended.
#[derive(Clone, Copy, Debug, PartialEq, Eq)]
pub enum Ran {
    /// No journal tells a fault of the disk: each device is at rest in its checkpoint.
    Clean,
    /// This device is the first whose journal tells a fault of the disk.
    Faulty { device: u32 },
}

/// Devices that commit or roll back together. Contracts see them as the devices, the script whose sections behind the
/// first are to be played, the number of the generator, and what the first sessions left, and the second ones.
#[derive(Drop)]
pub struct Pair<D: Disk, R: Ranges> {
    // Room for the disks.
    disks: Vec<D>,
    cores: Vec<Core<D, R>>,
    script: Script,
    draws: Draws,
    openings: Vec<Part>,
    laters: Vec<Part>,
}

impl<D: Disk, R: Ranges> Model for Pair<D, R> {
    ghost use Rattle.std.specs.Prelude.{◌≡◌, ◌≤◌, [], length, vec_capacity};
    ghost use Rattle.bow_pair.specs.Pairs.{Joined};

    ghost Value = { Joined D };

    ghost view = { λ p. record {
      cores = p.cores.items;
      script = p.script;
      number = p.draws;
      openings = p.openings.items;
      laters = p.laters.items;
    } };

    ghost invariant = { λ p. (p.disks.items ≡ []) × (length p.cores.items ≤ vec_capacity p.disks)
        × (length p.cores.items ≤ vec_capacity p.cores) × (2 ≤ length p.cores.items) × (length p.cores.items ≤ 8) };
}

impl<D: Disk + Drop, R: Ranges + Drop> Pair<D, R> {
    /// Opens a device of 16 places on each of 2 to 8 disks, in order. Each image is unchanged, and what a cut leaves
    /// meanwhile it might have left before.
    ///
    /// On an error all disks are handed back, in their order. `BadGeometry` and `NeedsRestore` name the first device
    /// that could not be opened, and come exactly where its disk states sizes that are not valid, or its block 0 begins
    /// with a magic; `DiskFault` comes only where the count of faults of the first disk rose on which no device could
    /// be opened. The disks behind that one are as they were.
    pub fn join_up(alloc: Global, mut disks: Vec<D>) -> Result<Pair<D, R>, (PairFault, Vec<D>)>
        requires some { 2 ≤ length disks.items }
        requires few { length disks.items ≤ 8 }
        ensures opened { IfOk result (λ p. AreOpenedOver D.stated D.content D.moment D.left_since D.faults disks.items
            [] p.cores) }
        ensures ready { IfOk result (λ p. AreReady 0 p.cores) }
        ensures fresh { IfOk result (λ p. (p.openings ≡ []) × (p.laters ≡ [])) }
        ensures cause { IfErr result (λ e. JoinsNot D.stated D.content D.moment D.left_since D.faults disks.items
            e.1.items e.0) }
    {
        let Ok(mut cores) = Vec::with_capacity(alloc, disks.len()) else {
            return Err((PairFault::NoMemory, disks));
        };
        let Ok(room) = Vec::with_capacity(alloc, disks.len()) else {
            return Err((PairFault::NoMemory, disks));
        };
        if let Err((fault, refused)) = open_each(alloc, &mut disks, &mut cores) {
            let mut all = close_onto(cores, room);
            all.push_reserved(refused);
            return Err((fault, put_onto(disks, all)));
        }
        Ok(Pair {
            disks: room,
            cores,
            script: Script::new(Vec::new(alloc)),
            draws: Draws::new(0),
            openings: Vec::new(alloc),
            laters: Vec::new(alloc),
        })
    }

    /// Plays the first sessions to their ends: on each device its lanes of the script's first section, and then a
    /// prepare. Lane l belongs to device l modulo the number of devices. In each turn a number below that of the
    /// devices is drawn: from there on, going round, the first session that is not over makes a turn.
    ///
    /// `NotAll` names exactly the first device whose prepare was not answered `Done`, or whose journal tells a fault of
    /// the disk. After `All` each device is in its checkpoint. `NoMemory` comes before the first step, and all is as it
    /// was.
    pub fn prepare(
        &mut self,
        alloc: Global,
        script: Script,
        number: u64,
    ) -> Result<Prepared, NoMemory>
        requires script { MayBeDealt script }
        requires ready { AreReady 0 self.old.cores }
        ensures played { IfOk result (λ answer. HavePlayed D.stated D.content D.moment D.left_since D.faults (λ device.
            opening_part device (length self.old.cores) script) self.old.cores self.new.cores self.new.openings) }
        ensures answer { IfOk result (AnswersPrepared self.new.cores self.new.openings) }
        ensures prepared { result ≡ Ok AllPrepared → WerePrepared self.new.cores }
        ensures script { IfOk result (λ answer. (self.new.script ≡ script) × (self.new.laters ≡ self.old.laters)) }
        ensures kept { OnErr result (self.new ≡ self.old) }
    {
        let mut draws = Draws::new(number);
        self.openings = play(alloc, &mut self.cores, &script, Round::Opening, &mut draws)?;
        self.script = script;
        self.draws = draws;
        Ok(how_prepared(&self.openings))
    }

    /// Plays the second sessions to their ends: on each device its lanes of the script's other sections, in turns that
    /// the same generator draws.
    ///
    /// `Faulty` names exactly the first device whose journal tells a fault of the disk. After `Clean` each device is at
    /// rest in its checkpoint. `NoMemory` comes before the first step, and all is as it was.
    pub fn run(&mut self, alloc: Global) -> Result<Ran, NoMemory>
        requires script { MayBeDealt self.old.script }
        requires prepared { WerePrepared self.old.cores }
        ensures played { IfOk result (λ answer. HavePlayed D.stated D.content D.moment D.left_since D.faults (λ device.
            later_part device (length self.old.cores) self.old.script) self.old.cores self.new.cores self.new.laters) }
        ensures answer { IfOk result (AnswersRan self.new.cores self.new.laters) }
        ensures rests { result ≡ Ok Clean → AreAtRest D.stated 2 self.new.cores }
        ensures others { IfOk result (λ answer. (self.new.script ≡ self.old.script)
            × (self.new.openings ≡ self.old.openings)) }
        ensures kept { OnErr result (self.new ≡ self.old) }
    {
        self.laters = play(
            alloc,
            &mut self.cores,
            &self.script,
            Round::Later,
            &mut self.draws,
        )?;
        Ok(how_ran(&self.laters))
    }

    /// Commits the devices together, as `bow_pair::decide` does. It takes no memory.
    pub fn decide<K: Keeper>(&mut self, keeper: &mut K) -> Decided
        requires rests { AreAtRest D.stated 2 self.old.cores }
        ensures cause { IsDecidedCaused (K.faults keeper.old) (K.faults keeper.new) D.faults self.old.cores
            self.new.cores result }
        ensures untouched { (device : ℕ) → result ≡ NotCommitted device → keeper.new ≡ keeper.old }
        ensures counts { NoneFell D.faults self.old.cores self.new.cores }
        ensures agreed { (left : Option (List ℕ)) → K.kept keeper.old ≡ Some None → K.kept keeper.new ≡ Some left
            → (members : List Member) → TakePart D.content self.old.cores members → (images : ℕ → List (List ℕ))
            → IsJointCut D.content (disks_of self.new.cores) images → AgreesBy result left members images }
        ensures others { (self.new.openings ≡ self.old.openings) × (self.new.laters ≡ self.old.laters) }
    {
        decide(&mut self.cores, keeper)
    }

    /// What a device did in a part, in order: in its first session, which is part 0, or in its second one, which is
    /// part 1. It is empty before that was played.
    pub fn journal(&self, device: u32, part: u32) -> &[Item]
        ensures { result.now ≡ journal_in (slice_get (part_of self.now part) device) }
    {
        match self.account(device, part) {
            Some(account) => account.journal(),
            None => &[],
        }
    }

    /// The bytes in the buffer of an answered read of a part. `None` exactly where that request is no answered read.
    pub fn data(&self, device: u32, part: u32, lane: u32, number: u32) -> Option<&[u8]>
        ensures { option_copied result ≡ data_in (slice_get (part_of self.now part) device) lane number }
    {
        match self.account(device, part) {
            Some(account) => account.data(lane, number),
            None => None,
        }
    }

    /// What a device's session of a part left: its journal, and the buffers of its reads. `None` before that was
    /// played.
    pub fn account(&self, device: u32, part: u32) -> Option<&Part>
        ensures { option_copied result ≡ slice_get (part_of self.now part) device }
    {
        if part == 0 {
            self.openings.get(device as usize)
        } else {
            self.laters.get(device as usize)
        }
    }

    /// The sizes of a device.
    pub fn geometry(&self, device: u32) -> Geometry
        requires on { device < length self.now.cores }
        ensures is { (v : View D) → slice_get self.now.cores device ≡ Some v → result ≡ v.geometry }
    {
        self.cores[device as usize].geometry()
    }

    /// Gives the disks back, in their order, without a call on them.
    pub fn close(self) -> Vec<D>
        ensures { result.items ≡ disks_of self.cores }
    {
        let Pair { disks, cores, .. } = self;
        close_onto(cores, disks)
    }
}
