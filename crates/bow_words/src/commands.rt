// Which command the words of the command line ask for.
ghost use Rattle.std.specs.Prelude.{◌≡◌, ◌↔◌, IfOk, IfErr, IsTrue};
ghost use Rattle.bow_words.specs.Words.{Asks, IsBlockWord, OwnWords, Takes, name_of, none_app, texts_of};
ghost use Rattle.bow_words.specs.Names.{text_of};
ghost use Rattle.bow_words.specs.declared.commands.Command.{Command};

use crate::faults::WordsFault;
use crate::names::{Name, read_name};
use crate::own_words::{read_limit, read_none, read_number_in, read_past, read_retry};
use std::alloc::Global;

/// What the words ask for.
#[derive(Clone, Copy, Debug, PartialEq, Eq)]
pub enum Command {
    /// Play a script on one thread, by the schedule of this number.
    Play(u64),
    /// Play a script by threads, with so many that serve its lanes, from 1 to 8.
    Run(u32),
    /// Bring the checkpoint back, or stop after so many writes, at least one.
    Restore(Option<u32>),
    /// Tell whether the chain of logs of the image is sound.
    Check,
    /// Keep the new state: give up a checkpoint that was not committed.
    Forward,
    /// Start a checkpoint with so many retries after the first attempt, at most 2147483646.
    Start(u32),
    /// Use up one attempt.
    Mark,
    /// Tell whether the system is to run with a checkpoint.
    NeedsCheckpoint,
    /// Tell whether the checkpoint is to be put back in place.
    NeedsRollback,
    /// Give the attempts up; `true` leaves them as they are, to try again.
    Abort(bool),
    /// Use up an attempt, put the checkpoint back where one is kept, and tell how the system boots.
    Boot,
    /// Make the drill of this number, on a disk of its own.
    Drill(u64),
    /// Play a script on one thread, by the schedule of this number, beside a reader of the checkpoint: of the blocks
    /// from this one, so many, from 1 to 4096.
    Past(u64, u32, u32),
    /// Play a script by callers, one a lane, each with a receipt of each request.
    Callers,
}

/// Reads the words after the program's name: `IMAGE ATTEMPTS BLOCK COMMAND` and the command's own words. BLOCK is
/// `512`, `1024`, `2048` or `4096`. The own words are read by one simple command of `clap`, which has no help and no
/// version; numbers are decimal without a needless zero.
///
/// | COMMAND | Own words |
/// |---|---|
/// | `play`, `drill` | a number below 2^64 |
/// | `past` | a number below 2^64, a first block below 2^32, and a number of blocks from 1 to 4096 |
/// | `run` | a number from 1 to 8 |
/// | `restore` | none, or `--limit K` with K from 1 to 4294967295 |
/// | `start` | a number from 0 to 2147483646 |
/// | `abort` | none, or `--retry` |
/// | `check`, `forward`, `mark`, `needs-checkpoint`, `needs-rollback`, `boot`, `callers` | none |
///
/// `BadWords` comes exactly where the words ask for no command, and `NoMemory` where there is no memory, in place of
/// any answer.
pub fn read_words(alloc: Global, words: &[String]) -> Result<Command, WordsFault>
    ensures ok { IfOk result (Asks words.now) }
    ensures refused { IfErr result (λ e. e ≡ WordsFault.BadWords
        → (command : Command) → Asks words.now command → ⊥) }
{
    match words {
        [_, _, block, name, own @ ..] if is_block_size(block.as_str()) => {
            match read_name(name.as_str()) {
                Some(name) => read_own(alloc, name, own),
                None => Err(WordsFault::BadWords),
            }
        }
        _ => Err(WordsFault::BadWords),
    }
}

// The command of this name that its own words ask for.
fn read_own(alloc: Global, name: Name, own: &[String]) -> Result<Command, WordsFault>
    ensures ok { IfOk result (λ command. (name_of command ≡ text_of name) × OwnWords (texts_of own.now) command) }
    ensures refused { IfErr result (λ e. e ≡ WordsFault.BadWords
        → (command : Command) → name_of command ≡ text_of name → OwnWords (texts_of own.now) command → ⊥) }
{
    match name {
        Name::Play => Ok(Command::Play(read_number_in(alloc, own, 0, 0xffff_ffff_ffff_ffff)?)),
        Name::Run => Ok(Command::Run(read_number_in(alloc, own, 1, 8)? as u32)),
        Name::Restore => Ok(Command::Restore(read_limit(alloc, own)?)),
        Name::Start => Ok(Command::Start(read_number_in(alloc, own, 0, 2_147_483_646)? as u32)),
        Name::Abort => Ok(Command::Abort(read_retry(alloc, own)?)),
        Name::Check => bare(alloc, own, Command::Check),
        Name::Forward => bare(alloc, own, Command::Forward),
        Name::Mark => bare(alloc, own, Command::Mark),
        Name::NeedsCheckpoint => bare(alloc, own, Command::NeedsCheckpoint),
        Name::NeedsRollback => bare(alloc, own, Command::NeedsRollback),
        Name::Boot => bare(alloc, own, Command::Boot),
        Name::Drill => { Ok(Command::Drill(read_number_in(alloc, own, 0, 0xffff_ffff_ffff_ffff)?)) }
        Name::Past => read_past(alloc, own),
        Name::Callers => bare(alloc, own, Command::Callers),
    }
}

// This command, where it has no own words.
fn bare(alloc: Global, own: &[String], command: Command) -> Result<Command, WordsFault>
    ensures ok { IfOk result (λ c. (c ≡ command) × Takes none_app (texts_of own.now)) }
    ensures refused { IfErr result (λ e. e ≡ WordsFault.BadWords → Takes none_app (texts_of own.now) → ⊥) }
{
    read_none(alloc, own)?;
    Ok(command)
}

// Whether a word is a size that a block may have.
pub(crate) fn is_block_size(word: &str) -> bool
    ensures { IsTrue result ↔ IsBlockWord word.now }
{
    word == "512" || word == "1024" || word == "2048" || word == "4096"
}
