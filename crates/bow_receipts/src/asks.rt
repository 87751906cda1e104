// What is asked in a call, and what is answered.
ghost use Rattle.std.specs.Prelude.{◌≡◌, IfOk, IfErr};
ghost use Rattle.bow_receipts.specs.Asking.{blank};

use bow_tags::Fits;
use bow_units::{Op, Outcome, Payload};
use std::alloc::{AllocError, Global};
use std::marker::Model;

/// The answer to a call: the place of its item in the journal, counted from 0; the outcome; and the bytes of the blocks
/// that were read, which are all blocks of a read at `Data`, the first `done` at `DiskFault { done }`, and else none.
#[derive(Drop)]
pub struct Answer {
    pub place: u32,
    pub outcome: Outcome,
    pub bytes: Payload,
}

/// A call that was answered: its caller, its number among that caller's, the op and the answer.
#[derive(Drop)]
pub struct Call {
    pub lane: u32,
    pub number: u32,
    pub op: Op,
    pub answer: Answer,
}

/// Why a call was not made.
#[derive(Clone, Copy, Debug, PartialEq, Eq)]
pub enum CallFault {
    /// The pass has made as many calls as it may.
    Spent,
    /// There was no memory.
    NoMemory,
}

/// Room for what a read has read, once for the caller and once for the record of all calls.
#[derive(Drop)]
pub(crate) struct Copies {
    pub(crate) answer: Payload,
    pub(crate) record: Payload,
}

/// What is asked: an op, with room for its answer. Contracts see it as its op, and of a read's payload only the length.
#[derive(Drop)]
pub struct Ask {
    pub(crate) op: Op,
    pub(crate) copies: Copies,
}

impl Model for Ask {
    ghost use Rattle.bow_units.specs.declared.requests.Op.{Op};
    ghost use Rattle.bow_receipts.specs.Asking.{blank};
    ghost use Rattle.bow_receipts.specs.Copies.{HasRoomFor};

    ghost Value = { Op };

    ghost view = { λ a. blank a.op };

    ghost invariant = { λ a. HasRoomFor a.op a.copies };
}

impl Fits for Ask {
    ghost use Rattle.bow_receipts.specs.Asking.{FitsSize};

    ghost fits = { λ size ask. FitsSize size ask };
}

impl Ask {
    /// The op with room for its answer.
    pub(crate) fn new(alloc: Global, op: Op) -> Result<Ask, Op>
        ensures ok { IfOk result (λ ask. ask ≡ blank op) }
        ensures err { IfErr result (λ back. back ≡ op) }
    {
        match Copies::new(alloc, &op) {
            Ok(copies) => Ok(Ask { op, copies }),
            Err(AllocError) => Err(op),
        }
    }
}

impl Copies {
    ghost use Rattle.bow_receipts.specs.Copies.{HasRoomFor};

    fn new(alloc: Global, op: &Op) -> Result<Copies, AllocError>
        ensures { IfOk result (λ copies. HasRoomFor op.now copies) }
    {
        let len = match op {
            Op::Read(_, payload) => payload.as_slice().len(),
            Op::Write(_, _) | Op::Discard(_) | Op::Flush | Op::Prepare | Op::Commit => 0,
        };
        let answer = vec![in alloc; 0u8; len]?;
        let record = vec![in alloc; 0u8; len]?;
        Ok(Copies {
            answer: Payload::new(answer),
            record: Payload::new(record),
        })
    }
}
