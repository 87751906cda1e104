// One step of a reader.
ghost use Rattle.std.specs.Prelude.{◌≡◌, ◌+◌, ◌<◌, length, None, Some, Result, IfOk, IfSome, OnErr};
ghost use Rattle.bow_log.specs.Rules.{IsLog};
ghost use Rattle.bow_flat.specs.Flat.{Flat};
ghost use Rattle.bow_core.specs.Standing.{StandsIn};
ghost use Rattle.bow_past.specs.Agreement.{Agrees};
ghost use Rattle.bow_past.specs.Inside.{FoundBy, LooksBy, ReadsBy};
ghost use Rattle.bow_past.specs.Steps.{GotIsKept, HasFailed, IsNotStrange, IsPastStep, ReadsBeside};
ghost use Rattle.bow_core.specs.Calls.{read_reply};

use crate::ended::{Ended, PastStep};
use crate::older::{empty_log, wanted_log};
use crate::readers::{Past, push_ended};
use bow_disk::Disk;
use bow_log::Log;
use bow_ranges::Ranges;
use bow_session::Session;
use bow_units::{Failed, NoMemory, Payload};
use std::alloc::Global;

impl Past {
    /// One step, with at most one read of the disk: nothing else of the session changes by it, nor the image, nor what
    /// it stands for. It is `Idle` exactly where the reader is not ready. Else it reads the missing log of greatest
    /// sequence, and is `Working` where it keeps it; or, once no log is missing, the next block, which ends as `Got`.
    /// The next block ends as `Failed` where the read failed, so only where the disk's count of faults rose; and as
    /// `Strange` where the block at the place of the missing log spells no such log, so never over a disk that tells
    /// its content. `NoMemory` leaves all as it was.
    ///
    /// The reader agrees with the session, and still does after it. So in the checkpoint, while lanes write, what was
    /// got of a block is what the live image keeps of it: for each flat state for which the device stands, what was
    /// saved of it, where it is used.
    pub fn step<D: Disk, R: Ranges + Drop>(
        &mut self,
        alloc: Global,
        session: &mut Session<D, R>,
    ) -> Result<PastStep, NoMemory>
        requires agrees { Agrees D.content self.old session.old.core }
        ensures step { IsPastStep D.stated D.content D.moment D.left_since D.faults self.old session.old result self.new
            session.new }
        ensures reach { (f : Flat) → StandsIn D.content session.old.core f → IfOk result (λ step. GotIsKept D.content
            session.old.core f self.new step) }
        ensures told { (f : Flat) → StandsIn D.content session.old.core f → IfOk result (λ step. IsNotStrange step) }
        ensures cause { IfOk result (λ step. HasFailed step (D.faults session.old.core.disk) (D.faults
            session.new.core.disk)) }
        ensures still { session.new ≡ record session.old {
          core = record session.old.core { disk = session.new.core.disk; calls = session.new.core.calls };
        } }
        ensures image { D.content session.new.core.disk ≡ D.content session.old.core.disk }
        ensures stands { (f : Flat) → StandsIn D.content session.old.core f → StandsIn D.content session.new.core f }
        ensures memory { OnErr result ((self.new ≡ self.old) × (session.new ≡ session.old)) }
        ensures agrees { Agrees D.content self.new session.new.core }
    {
        self.go_on(alloc, session)
    }

    // The step itself.
    fn go_on<D: Disk, R: Ranges + Drop>(
        &mut self,
        alloc: Global,
        session: &mut Session<D, R>,
    ) -> Result<PastStep, NoMemory>
        requires agrees { Agrees D.content self.old session.old.core }
        ensures step { IsPastStep D.stated D.content D.moment D.left_since D.faults self.old session.old result self.new
            session.new }
    {
        if !self.ready(session) {
            return Ok(PastStep::Idle);
        }
        // A look at the sizes, for what their contract says of the session.
        session.geometry();
        let Some(log) = session.log() else {
            return Ok(PastStep::Idle);
        };
        let present = log.sequence;
        match self.missing(present) {
            Some(wanted) => {
                let place = self.place(log, wanted + 1, 0);
                self.read_log(alloc, session, wanted, place)
            }
            None => {
                let place = self.place(log, 0, self.next());
                Ok(self.read_block(session, place))
            }
        }
    }

    // Reads the log of this sequence at its place.
    fn read_log<D: Disk, R: Ranges + Drop>(
        &mut self,
        alloc: Global,
        session: &mut Session<D, R>,
        wanted: u32,
        place: u64,
    ) -> Result<PastStep, NoMemory>
        requires sizes { self.old.geometry ≡ session.old.core.geometry }
        requires on { place < self.old.geometry.blocks }
        requires left { length self.old.ended < self.old.extent.count }
        ensures looks { LooksBy D.stated D.content D.moment D.left_since D.faults self.old wanted place session.old
            result self.new session.new }
    {
        let kept = Box::new(alloc, empty_log())?;
        let before = self.places();
        self.make_place(wanted)?;
        match self.look(session, wanted, place) {
            Ok(Some(log)) => {
                self.keep(wanted, kept, log);
                Ok(PastStep::Working)
            }
            Ok(None) => {
                let block = self.give_up(before, Ended::Strange);
                Ok(PastStep::Strange { block })
            }
            Err(Failed) => {
                let block = self.give_up(before, Ended::Failed);
                Ok(PastStep::Failed { block })
            }
        }
    }

    // Reads the block at this place, for the log of this sequence.
    fn look<D: Disk, R: Ranges + Drop>(
        &mut self,
        session: &mut Session<D, R>,
        wanted: u32,
        place: u64,
    ) -> Result<Option<Log>, Failed>
        requires sizes { self.old.geometry ≡ session.old.core.geometry }
        requires on { place < self.old.geometry.blocks }
        ensures same { self.new ≡ self.old }
        ensures found { FoundBy D.stated D.content D.moment D.left_since D.faults self.old.geometry wanted place
            session.old result session.new }
        ensures log { IfOk result (λ found. IfSome found (λ log. IsLog self.old.geometry log)) }
    {
        read_at(session, place, &mut self.block)?;
        Ok(wanted_log(self.block.as_slice(), self.geometry, wanted))
    }

    // Reads the next block at its place.
    fn read_block<D: Disk, R: Ranges + Drop>(
        &mut self,
        session: &mut Session<D, R>,
        place: u64,
    ) -> PastStep
        requires sizes { self.old.geometry ≡ session.old.core.geometry }
        requires on { place < self.old.geometry.blocks }
        requires left { length self.old.ended < self.old.extent.count }
        ensures reads { ReadsBy D.stated D.content D.moment D.left_since D.faults self.old place session.old result
            self.new session.new }
    {
        let block = self.next();
        let Some(mut buffer) = self.buffers.pop() else {
            return PastStep::Idle;
        };
        match read_at(session, place, &mut buffer) {
            Ok(()) => {
                push_ended(&mut self.ended, Ended::Got(buffer));
                PastStep::Got { block }
            }
            Err(Failed) => {
                push_ended(&mut self.ended, Ended::Failed);
                PastStep::Failed { block }
            }
        }
    }
}

// One read of a block of the disk.
fn read_at<D: Disk, R: Ranges + Drop>(
    session: &mut Session<D, R>,
    at: u64,
    into: &mut Payload,
) -> Result<(), Failed>
    requires on { at < session.old.core.geometry.blocks }
    requires one { length into.old ≡ session.old.core.geometry.block_size }
    ensures length { length into.new ≡ length into.old }
    ensures reads { ReadsBeside D.stated D.content D.moment D.left_since D.faults at (read_reply result into.new)
        session.old session.new }
{
    session.raw(at, &mut into.bytes)
}
