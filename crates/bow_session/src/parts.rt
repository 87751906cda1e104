// What a session leaves apart from its device.
ghost use Rattle.std.specs.Prelude.{◌≡◌, length, IfSome, option_copied, slice_get};
ghost use Rattle.bow_units.specs.Sizes.{IsBlockSize};
ghost use Rattle.bow_session.specs.Contents.{bytes_given, content_in, data_of};
ghost use Rattle.bow_session.specs.Parts.{buffers_in, plan_at};
ghost use Rattle.bow_session.specs.Requests.{lane_lines};

use crate::lines::line_of;
use crate::records::Records;
use bow_history::Item;
use bow_script::{Line, Script};
use bow_units::Geometry;
use std::marker::Model;

/// What a session leaves apart from its device: what was done, and the buffers of its answered reads. Contracts see it
/// as the device's sizes, the script, of each lane the answered requests with their buffers, and the journal.
#[derive(Drop)]
pub struct Part {
    pub(crate) geometry: Geometry,
    pub(crate) script: Script,
    pub(crate) records: Records,
}

impl Model for Part {
    ghost use Rattle.bow_session.specs.Parts.{Account};

    ghost Value = { Account };

    ghost use Rattle.bow_session.specs.Kept.{IsWhole, account_in};

    ghost view = { λ p. account_in p.geometry p.script p.records };

    ghost invariant = { λ p. IsWhole p.geometry p.script p.records };
}

impl Part {
    /// Request `number` of the lane as the script has it.
    pub fn line(&self, lane: u32, number: u32) -> Option<&Line>
        ensures { option_copied result ≡ slice_get (lane_lines self.now.script lane) number }
    {
        line_of(&self.script, lane as usize, number as usize)
    }

    /// What was done, in order.
    pub fn journal(&self) -> &[Item]
        ensures { result.now ≡ self.now.journal }
    {
        self.records.journal.as_slice()
    }

    /// The bytes in the buffer of an answered read. `None` exactly where that request is no answered read.
    pub fn data(&self, lane: u32, number: u32) -> Option<&[u8]>
        ensures { option_copied result ≡ data_of self.now.lanes lane number }
    {
        self.records.data(lane, number)
    }

    /// The block that an item of a read has read, from the buffer of that request once it is answered; `None` of any
    /// other item.
    pub fn content(&self, item: Item) -> Option<&[u8]>
        ensures bytes { bytes_given (option_copied result)
            ≡ content_in (plan_at self.now) (buffers_in self.now) item }
        ensures block { IfSome result (λ bytes. IsBlockSize (length bytes.now)) }
    {
        self.records.content(&self.script, self.geometry, item)
    }
}
