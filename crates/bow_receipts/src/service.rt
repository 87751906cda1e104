// What lies under the lock.
ghost use Rattle.std.specs.Prelude.{◌≡◌, ◌+◌, ◌-◌, ◌^◌, ◌<◌, ◌≤◌, Some, length, true, false, IsTrue};
ghost use Rattle.bow_core.specs.Turns.{told_of};
ghost use Rattle.bow_machine.specs.Steps.{Idle};
ghost use Rattle.bow_receipts.specs.Copies.{read_by};
ghost use Rattle.bow_receipts.specs.declared.hands.Hand.{Hand};

use crate::asks::{Answer, Ask, Call, Copies};
use crate::hands::{Hand, is_free, lane_of};
use crate::naming::Naming;
use bow_core::{Core, Step, Ticket, Turn};
use bow_disk::Disk;
use bow_history::Item;
use bow_ranges::Ranges;
use bow_session::first_block;
use bow_tags::{ServerSeat, Tags};
use bow_units::{Op, Outcome, Payload};

// The device, the one seat that serves its callers, what each of them has in hand, what was done, the calls that are
// answered, and the section of the last request that was taken in.
#[derive(Drop)]
pub(crate) struct Service<D: Disk, R: Ranges> {
    pub(crate) core: Core<D, R>,
    pub(crate) server: ServerSeat<Ask, Answer>,
    pub(crate) hands: Vec<Option<Hand>>,
    pub(crate) journal: Vec<Item>,
    pub(crate) calls: Vec<Call>,
    pub(crate) low: u32,
}

impl<D: Disk, R: Ranges> Service<D, R> {
    ghost use Rattle.bow_receipts.specs.Served.{Serves};
    ghost use Rattle.bow_receipts.specs.Noted.{IsOfHand, IsNotable, IsAnswerable, IsAnswered, IsNoted, IsTurnOf};
    ghost use Rattle.bow_receipts.specs.Hands.{hand_at, lane_with};
    ghost use Rattle.bow_receipts.specs.Sectioned.{GoesBySections, MayBegin};

    // Takes the request of this number in, where its caller has posted it, and no request of an earlier section is in
    // hand.
    pub(crate) fn admit<J: Naming<D>>(
        &mut self,
        tags: &Tags<Ask, Answer>,
        lane: u32,
        number: u32,
        section: u32,
    ) -> bool
        requires own { tags.now ≡ J.table }
        requires serves { Serves D.stated D.content D.moment D.left_since D.faults J.sizes J.callers J.allowed J.table
            J.begins self.old }
        requires lane { lane < J.callers }
        requires may { number < J.allowed lane }
        requires section { section ≡ J.section lane number }
        requires sections { GoesBySections J.section self.old.hands.items self.old.journal.items self.old.low }
        ensures sections { GoesBySections J.section self.new.hands.items self.new.journal.items self.new.low }
        ensures serves { Serves D.stated D.content D.moment D.left_since D.faults J.sizes J.callers J.allowed J.table
            J.begins self.new }
    {
        if !self.may_begin(section) {
            return false;
        }
        let Ok((job, ask)) = tags.take(&mut self.server, lane, number) else {
            return false;
        };
        let Ask { op, copies } = ask;
        let first = first_block(&op);
        let ticket = self.core.admit(op);
        self.hands[lane as usize] = Some(Hand {
            ticket,
            job,
            first,
            copies,
        });
        self.low = section;
        true
    }

    // Whether a request of this section may be taken in: none of a later one was, and none of an earlier one is in
    // hand.
    fn may_begin(&self, section: u32) -> bool
        ensures { result ≡ true → MayBegin self.now.hands.items self.now.low section }
    {
        if section == self.low {
            return true;
        }
        section > self.low && is_free(&self.hands)
    }

    // One step of the device: of the caller's own request where it can go on, and else of the worker or of the
    // commands. It says whether the device did anything.
    pub(crate) fn step<J: Naming<D>>(&mut self, tags: &Tags<Ask, Answer>, lane: u32) -> bool
        requires own { tags.now ≡ J.table }
        requires serves { Serves D.stated D.content D.moment D.left_since D.faults J.sizes J.callers J.allowed J.table
            J.begins self.old }
        requires lane { lane < J.callers }
        requires sections { GoesBySections J.section self.old.hands.items self.old.journal.items self.old.low }
        ensures sections { GoesBySections J.section self.new.hands.items self.new.journal.items self.new.low }
        ensures serves { Serves D.stated D.content D.moment D.left_since D.faults J.sizes J.callers J.allowed J.table
            J.begins self.new }
    {
        let turn = self.next_turn(lane as usize);
        let told = self.core.step(turn);
        let moved = !matches!(&told, Step::Idle);
        self.note(tags, told);
        moved
    }

    // Whose turn it is where the caller makes the step.
    fn next_turn(&self, lane: usize) -> Turn
        requires { lane < length self.now.hands.items }
        ensures { IsTurnOf self.now.hands.items result }
    {
        if let Some(hand) = &self.hands[lane] {
            let turn = Turn::Map(hand.ticket);
            if self.core.ready(turn) {
                return turn;
            }
        }
        if self.core.ready(Turn::Worker) {
            return Turn::Worker;
        }
        Turn::Command
    }

    // What a step told becomes at most one item of the journal; and where it is an answer, the caller gets it.
    fn note(&mut self, tags: &Tags<Ask, Answer>, told: Step)
        requires own { self.old.server.table ≡ tags.now }
        requires told { IsOfHand told self.old }
        ensures { IsNoted told self.old self.new }
    {
        match told {
            Step::Idle | Step::Moved => {}
            Step::Wrote { ticket, index } => {
                let lane = lane_of(&self.hands, ticket);
                if let Some(hand) = &self.hands[lane] {
                    self.journal.push_reserved(Item::Wrote {
                        lane: hand.job.lane,
                        number: hand.job.number,
                        block: hand.first + index as u64,
                    });
                }
            }
            Step::Got { ticket, index } => {
                let lane = lane_of(&self.hands, ticket);
                if let Some(hand) = &self.hands[lane] {
                    self.journal.push_reserved(Item::Got {
                        lane: hand.job.lane,
                        number: hand.job.number,
                        block: hand.first + index as u64,
                    });
                }
            }
            Step::Answered {
                ticket,
                op,
                outcome,
            } => self.answer(tags, ticket, op, outcome),
        }
    }

    // The request of the ticket is answered.
    #[tactic(auto, using(crate::proofs::OpAsks::read_fits))]
    fn answer(&mut self, tags: &Tags<Ask, Answer>, ticket: Ticket, op: Op, outcome: Outcome)
        requires own { self.old.server.table ≡ tags.now }
        requires told { (h : Hand) × IsNotable self.old ticket h × IsAnswerable self.old h op }
        ensures { (h : Hand) → hand_at self.old.hands.items (lane_with self.old.hands.items ticket) ≡ Some h
            → IsAnswered self.old ticket h op outcome self.new }
    {
        let at = lane_of(&self.hands, ticket);
        let Some(hand) = self.hands[at].take() else {
            return;
        };
        let Hand {
            ticket: _,
            job,
            first: _,
            copies,
        } = hand;
        let (lane, number) = (job.lane, job.number);
        let place = self.journal.len() as u32;
        let block_size = self.core.geometry().block_size;
        let Copies { answer, record } = copies;
        let bytes = copied(answer, read_by(&op, outcome, block_size));
        let kept = copied(record, read_by(&op, outcome, block_size));
        self.journal.push_reserved(Item::Answered {
            lane,
            number,
            outcome,
        });
        let given = Answer {
            place,
            outcome,
            bytes,
        };
        tags.answer(&mut self.server, job, given);
        self.calls.push_reserved(Call {
            lane,
            number,
            op,
            answer: Answer {
                place,
                outcome,
                bytes: kept,
            },
        });
    }
}

// The blocks that a read has read, as its outcome says; no other op reads anything.
fn read_by(op: &Op, outcome: Outcome, block_size: u32) -> &[u8]
    ensures { result.now ≡ read_by block_size op.now outcome }
{
    let Op::Read(_, payload) = op else {
        return &[];
    };
    let bytes = payload.as_slice();
    match outcome {
        Outcome::Data => bytes,
        Outcome::DiskFault { done } => {
            let read = done as usize * block_size as usize;
            &bytes[..read.min(bytes.len())]
        }
        _ => &[],
    }
}

// These bytes, in the room of a payload that is as long at least.
fn copied(into: Payload, bytes: &[u8]) -> Payload
    requires { length bytes.now ≤ length into }
    ensures { result ≡ bytes.now }
{
    let Payload { bytes: mut room } = into;
    room.truncate(bytes.len());
    room.copy_from_slice(bytes);
    Payload::new(room)
}
