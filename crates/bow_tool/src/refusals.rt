// Why a call of the program ends without doing what was asked.
ghost use Rattle.std.specs.Prelude.{◌≡◌, IfOk};
ghost use Rattle.std.specs.String.{string_bytes};
ghost use Rattle.bow_tool.specs.Refusals.{status_of, refusal_line};

use bow_chain::ChainFault;
use bow_log::LogFault;
use bow_report::{ChainFaultText, LogFaultText};
use bow_units::{Geometry, NoMemory};
use std::alloc::Global;
use std::fmt;

/// Why a call of the program ends without doing what was asked. Each has its status and its line.
#[derive(Clone, Copy, Debug, PartialEq, Eq)]
pub enum Refusal {
    /// The words ask for no command.
    BadWords,
    /// The source gave no script. This is the first line at fault, counted from 1, and 0 stands for the length.
    BadScript(u32),
    /// A call of the source failed.
    SourceFault,
    /// A call of the disk failed, as the sizes were asked, the device was opened, or the image was read or restored.
    DiskFault,
    /// A call of the keeper failed.
    KeeperFault,
    /// Block 0 holds a log: the device has to be restored first.
    NeedsRestore,
    /// Block 0 begins with a magic, and the chain of logs behind it is not sound. This is its first fault.
    BadChain(ChainFault),
    /// Block 0 begins with a magic, and the header behind it has this fault.
    BadHeader(LogFault),
    /// The block that the header names begins with a magic.
    Reserved,
    /// A text is kept that is no text of attempts.
    BadAttempts,
    /// There was no memory.
    NoMemory,
    /// The limit of a restoration was reached: so many blocks were copied back.
    Stopped(u32),
    /// No device has these sizes.
    BadGeometry(Geometry),
}

impl From<NoMemory> for Refusal {
    ghost use Rattle.std.specs.Prelude.{◌≡◌};
    ghost use Rattle.bow_tool.specs.declared.refusals.Refusal.TheVariants.{NoMemory};

    ghost from_gives = { λ _ e. e ≡ NoMemory };

    fn from(_: NoMemory) -> Self {
        Refusal::NoMemory
    }
}

impl Refusal {
    /// The status with which the program ends.
    pub fn status(&self) -> u8
        ensures { result ≡ status_of self.now }
    {
        match self {
            Refusal::BadWords => 2,
            Refusal::BadScript(_) => 3,
            Refusal::SourceFault => 4,
            Refusal::DiskFault => 6,
            Refusal::KeeperFault => 7,
            Refusal::NeedsRestore => 8,
            Refusal::BadChain(_) | Refusal::BadHeader(_) | Refusal::Reserved => 9,
            Refusal::BadAttempts => 10,
            Refusal::NoMemory => 11,
            Refusal::Stopped(_) => 12,
            Refusal::BadGeometry(_) => 13,
        }
    }

    /// The line that the program writes, with its line feed.
    pub fn line(&self, alloc: Global) -> Result<String, NoMemory>
        ensures { IfOk result (λ line. string_bytes line ≡ refusal_line self.now) }
    {
        let refusal = *self;
        Ok(format!(in alloc; "{refusal}\n")?)
    }
}

impl fmt::Display for Refusal {
    ghost use Rattle.std.specs.Prelude.{Some};
    ghost use Rattle.bow_tool.specs.Refusals.{refusal_text};

    ghost output = { λ x. Some (refusal_text x) };

    fn fmt<W: fmt::Write>(&self, f: &mut fmt::Formatter<W>) -> fmt::Result {
        match self {
            Refusal::BadWords => f.write_str("bad words"),
            Refusal::BadScript(line) => write!(f, "bad script at line {line}"),
            Refusal::SourceFault => f.write_str("source fault"),
            Refusal::DiskFault => f.write_str("disk fault"),
            Refusal::KeeperFault => f.write_str("keeper fault"),
            Refusal::NeedsRestore => f.write_str("needs restore"),
            Refusal::BadChain(fault) => write!(f, "{}", ChainFaultText(*fault)),
            Refusal::BadHeader(fault) => write!(f, "bad header: {}", LogFaultText(*fault)),
            Refusal::Reserved => f.write_str("bad header: reserved block"),
            Refusal::BadAttempts => f.write_str("bad attempts"),
            Refusal::NoMemory => f.write_str("no memory"),
            Refusal::Stopped(writes) => write!(f, "stopped after {writes} writes"),
            Refusal::BadGeometry(sizes) => {
                let block_size = sizes.block_size;
                let blocks = sizes.blocks;
                write!(f, "bad geometry {block_size} {blocks}")
            }
        }
    }
}
