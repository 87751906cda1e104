// A request that waits.
ghost use Rattle.std.specs.Prelude.{◌≡◌, ◌+◌, ◌-◌, ◌*◌, ◌<◌, ◌≤◌, ◌^◌, length};
ghost use Rattle.bow_queue.specs.Requests.{one_read, payload_of, with_read, written};

use crate::Ticket;
use bow_units::{Extent, Op};

/// A request that was taken in and is not answered.
#[derive(Drop)]
pub struct Request {
    /// Under which it waits.
    pub ticket: Ticket,
    /// What it asks for; a read's payload has what was read so far.
    pub op: Op,
    /// How many of its blocks are done.
    pub done: u32,
}

// Where a write writes.
pub(crate) fn written(op: &Op) -> Option<Extent>
    ensures { result ≡ written op.now }
{
    match op {
        Op::Write(extent, _) => Some(*extent),
        _ => None,
    }
}

// Puts a block into its place in the buffer of a read.
fn put_block(op: &mut Op, index: u32, content: &[u8])
    requires one { length content.now ≤ 4096 }
    requires room { (index + 1) * length content.now ≤ length (payload_of op.old) }
    ensures { op.new ≡ with_read (length content.now) op.old index content.now }
{
    if let Op::Read(_, payload) = op {
        let start = index as usize * content.len();
        payload.bytes[start..start + content.len()].copy_from_slice(content);
    }
}

impl Request {
    // The next block of a read is this, and it is done.
    pub(crate) fn fill(&mut self, content: &[u8])
        requires counted { self.old.done < 2 ^ 32 - 1 }
        requires one { length content.now ≤ 4096 }
        requires room { (self.old.done + 1) * length content.now ≤ length (payload_of self.old.op) }
        ensures { self.new ≡ one_read (length content.now) self.old content.now }
    {
        put_block(&mut self.op, self.done, content);
        self.done += 1;
    }
}
