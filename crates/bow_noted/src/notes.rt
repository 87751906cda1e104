// What files are asked for, and which calls they refuse.
ghost use Rattle.std.specs.Prelude.{◌≤◌};

use std::cell::Cell;
use std::io;

/// What files are asked for.
#[derive(Clone, Copy, Debug, PartialEq, Eq)]
pub enum Call {
    /// To open a file, to read it alone: digit 1.
    OpenToRead,
    /// To open a file, also to write it: digit 2.
    OpenToWrite,
    /// For the length of a file: digit 3.
    Length,
    /// To seek a place: digit 4.
    Seek,
    /// To read: digit 5.
    Read,
    /// To write: digit 6.
    Write,
    /// To sync the data of a file: digit 7.
    SyncData,
    /// To sync all of a file: digit 8.
    SyncAll,
    /// To give a file another name: digit 9.
    Rename,
    /// To remove a file: digit 10, `a`.
    Remove,
}

impl Call {
    fn digit(self) -> u64 {
        match self {
            Call::OpenToRead => 1,
            Call::OpenToWrite => 2,
            Call::Length => 3,
            Call::Seek => 4,
            Call::Read => 5,
            Call::Write => 6,
            Call::SyncData => 7,
            Call::SyncAll => 8,
            Call::Rename => 9,
            Call::Remove => 10,
        }
    }
}

/// What was asked for, how many calls more go through, which call is refused, and how many bytes one moves at most.
#[derive(Drop)]
pub struct Notes {
    asked: Cell<u64>,
    left: Cell<u64>,
    refused: Cell<Option<Call>>,
    most: Cell<usize>,
}

impl Notes {
    /// Nothing was asked for, and nothing is refused.
    pub fn new() -> Notes {
        Notes {
            asked: Cell::new(0),
            left: Cell::new(u64::MAX),
            refused: Cell::new(None),
            most: Cell::new(usize::MAX),
        }
    }

    /// What was asked for since this was last called: the last sixteen calls, a hexadecimal digit each.
    pub fn take(&self) -> u64 {
        let asked = self.asked.get();
        self.asked.set(0);
        asked
    }

    /// Lets so many calls through, and refuses those behind them.
    pub fn let_through(&self, calls: u64) {
        self.left.set(calls);
    }

    /// Refuses this call each time, or none.
    pub fn refuse(&self, call: Option<Call>) {
        self.refused.set(call);
    }

    /// Lets a read or a write move so many bytes at most.
    pub fn move_at_most(&self, bytes: usize) {
        self.most.set(bytes);
    }

    // How many of so many bytes one call moves.
    pub(crate) fn most(&self, bytes: usize) -> usize
        ensures { result ≤ bytes }
    {
        self.most.get().min(bytes)
    }

    // Notes a call, which is refused where it is the one to refuse or too many went through.
    pub(crate) fn note(&self, call: Call) -> io::Result<()> {
        self.asked.set(self.asked.get().wrapping_mul(16).wrapping_add(call.digit()));
        let left = self.left.get();
        if left == 0 || self.refused.get() == Some(call) {
            return Err(io::ErrorKind::Other.into());
        }
        self.left.set(left - 1);
        Ok(())
    }
}
