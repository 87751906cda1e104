// The value under the lock.
ghost use Rattle.std.specs.Prelude.{◌≡◌, ◌<◌, vec_capacity};
ghost use Rattle.bow_receipts.specs.Passes.{HaveRoom};
ghost use Rattle.bow_receipts.specs.Sectioned.{GoesBySections};
ghost use Rattle.bow_receipts.specs.Served.{Serves};

use crate::asks::{Answer, Ask};
use crate::naming::Naming;
use crate::service::Service;
use bow_disk::Disk;
use bow_ranges::Ranges;
use bow_tags::{LaneSeat, ServerSeat, Tags};
use bow_units::Seen;
use std::marker::{Model, PhantomData};

// The device with what its callers have in hand and what was done, the number of steps made, and room for the seats of
// all callers and of the server when the desk is closed. It keeps that this is the history of the callers of the desk
// that J names.
#[derive(Drop)]
pub(crate) struct Locked<J: Naming<D>, D: Disk, R: Ranges> {
    service: Service<D, R>,
    steps: u64,
    lanes: Vec<LaneSeat<Ask, Answer>>,
    servers: Vec<ServerSeat<Ask, Answer>>,
    of: PhantomData<J>,
}

// What it hands back when the desk is closed.
#[derive(Drop)]
pub(crate) struct Parts<D: Disk, R: Ranges> {
    pub(crate) service: Service<D, R>,
    pub(crate) lanes: Vec<LaneSeat<Ask, Answer>>,
    pub(crate) servers: Vec<ServerSeat<Ask, Answer>>,
}

impl<J: Naming<D>, D: Disk, R: Ranges> Model for Locked<J, D, R> {
    ghost use Rattle.std.specs.Prelude.{vec_capacity};
    ghost use Rattle.bow_receipts.specs.declared.service.Service.{Service};
    ghost use Rattle.bow_receipts.specs.Passes.{HaveRoom};
    ghost use Rattle.bow_receipts.specs.Served.{Serves};
    ghost use Rattle.bow_receipts.specs.Sectioned.{GoesBySections};

    ghost Value = { Service D R };

    ghost view = { λ l. l.service };

    ghost invariant = { λ l. HaveRoom J.callers l.lanes.items l.servers.items (vec_capacity l.lanes)
        (vec_capacity l.servers) × Serves D.stated D.content D.moment D.left_since D.faults J.sizes J.callers J.allowed
        J.table J.begins l.service × GoesBySections J.section l.service.hands.items l.service.journal.items
        l.service.low };
}

impl<J: Naming<D>, D: Disk, R: Ranges> Locked<J, D, R> {
    pub(crate) fn new(
        service: Service<D, R>,
        lanes: Vec<LaneSeat<Ask, Answer>>,
        servers: Vec<ServerSeat<Ask, Answer>>,
    ) -> Locked<J, D, R>
        requires room { HaveRoom J.callers lanes.items servers.items (vec_capacity lanes) (vec_capacity servers) }
        requires sections { GoesBySections J.section service.hands.items service.journal.items service.low }
        requires serves { Serves D.stated D.content D.moment D.left_since D.faults J.sizes J.callers J.allowed J.table
            J.begins service }
    {
        Locked {
            service,
            steps: 0,
            lanes,
            servers,
            of: PhantomData,
        }
    }

    // Takes the request of this number in, where its caller has posted it.
    pub(crate) fn admit(
        &mut self,
        tags: &Tags<Ask, Answer>,
        lane: u32,
        number: u32,
        section: u32,
    ) -> bool
        requires own { tags.now ≡ J.table }
        requires lane { lane < J.callers }
        requires may { number < J.allowed lane }
        requires section { section ≡ J.section lane number }
    {
        self.service.admit::<J>(tags, lane, number, section)
    }

    // One step for the caller. It says whether the device did anything.
    pub(crate) fn step(&mut self, tags: &Tags<Ask, Answer>, lane: u32) -> bool
        requires own { tags.now ≡ J.table }
        requires lane { lane < J.callers }
    {
        let moved = self.service.step::<J>(tags, lane);
        self.steps = self.steps.saturating_add(1);
        moved
    }

    // The present status, under the number of the steps made.
    pub(crate) fn seen(&self) -> Seen {
        Seen {
            version: self.steps,
            status: self.service.core.status(),
        }
    }

    pub(crate) fn into_parts(self) -> Parts<D, R>
        ensures serves { Serves D.stated D.content D.moment D.left_since D.faults J.sizes J.callers J.allowed J.table
            J.begins result.service }
        ensures room { HaveRoom J.callers result.lanes.items result.servers.items (vec_capacity result.lanes)
            (vec_capacity result.servers) }
        ensures sections { GoesBySections J.section result.service.hands.items result.service.journal.items
            result.service.low }
    {
        let Locked {
            service,
            steps: _,
            lanes,
            servers,
            of: _,
        } = self;
        Parts {
            service,
            lanes,
            servers,
        }
    }
}
