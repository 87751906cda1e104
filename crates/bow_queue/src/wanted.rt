// What is looked for among the waiting requests.
ghost use Rattle.std.specs.Prelude.{◌≡◌};
ghost use Rattle.bow_queue.specs.Insides.{is_wanted};

use crate::extents::{covers, overlap};
use crate::requests::{Request, written};
use bow_units::{Extent, Op};

// What is looked for.
#[derive(Clone, Copy)]
pub(crate) enum Wanted {
    // A write that covers this block.
    WriteOf(u64),
    // A write that overlaps this extent and has a serial number below this one.
    EarlierWrite(Extent, u64),
    // A prepare or a commit.
    Command,
}

impl Wanted {
    // Whether the request is one.
    pub(crate) fn fits(self, request: &Request) -> bool
        ensures { result ≡ is_wanted self request.now }
    {
        match self {
            Wanted::WriteOf(block) => written(&request.op).is_some_and(|extent| covers(
                extent, block,
            )),
            Wanted::EarlierWrite(extent, serial) => {
                request.ticket.serial < serial
                    && written(&request.op).is_some_and(|other| overlap(extent, other))
            }
            Wanted::Command => matches!(request.op, Op::Prepare | Op::Commit),
        }
    }
}
