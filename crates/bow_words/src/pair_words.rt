// The words that ask for several devices under one decision.
ghost use Rattle.std.specs.Prelude.{◌≡◌, ℕ, IfOk, IfErr, codes};
ghost use Rattle.bow_words.specs.Words.{texts_of};
ghost use Rattle.bow_words.specs.PairWords.{AreImages, AskForOnePair, AsksPair, PairOwn, pair_name};
ghost use Rattle.bow_words.specs.declared.pair_words.PairCommand.{PairCommand};

use crate::commands::is_block_size;
use crate::faults::WordsFault;
use crate::own_words::read_number_in;
use std::alloc::Global;

/// What the words ask for of several devices, each on an image of its own.
#[derive(Clone, Copy, Debug, PartialEq, Eq)]
pub enum PairCommand {
    /// Play a script over so many images, from 2 to 8, by the schedule of this number.
    Pair { number: u64, images: u32 },
    /// Settle so many images, from 2 to 8, after a cut.
    PairBoot { images: u32 },
}

/// Reads the words after the program's name: `IMAGE ATTEMPTS BLOCK COMMAND` and the command's own words. BLOCK is
/// `512`, `1024`, `2048` or `4096`. Device 0 is IMAGE, and one to seven further images are the devices from 1 on.
///
/// | COMMAND | Own words |
/// |---|---|
/// | `pair` | a number below 2^64, and then the further images |
/// | `pair-boot` | the further images |
///
/// `BadWords` comes exactly where the words ask for neither, and `NoMemory` where there is no memory, in place of any
/// answer.
pub fn read_pair_words(alloc: Global, words: &[String]) -> Result<PairCommand, WordsFault>
    ensures ok { IfOk result (AsksPair words.now) }
    ensures refused { IfErr result (λ e. e ≡ WordsFault.BadWords
        → (command : PairCommand) → AsksPair words.now command → ⊥) }
{
    match words {
        [_, _, block, name, own @ ..] if is_block_size(block.as_str()) => match name.as_str() {
            "pair" => read_pair(alloc, own),
            "pair-boot" => read_pair_boot(own),
            _ => Err(WordsFault::BadWords),
        },
        _ => Err(WordsFault::BadWords),
    }
}

// A number, and the further images.
fn read_pair(alloc: Global, own: &[String]) -> Result<PairCommand, WordsFault>
    ensures ok { IfOk result (λ c. (pair_name c ≡ codes "pair") × PairOwn (texts_of own.now) c) }
    ensures refused { IfErr result (λ e. e ≡ WordsFault.BadWords → (command : PairCommand)
        → pair_name command ≡ codes "pair" → PairOwn (texts_of own.now) command → ⊥) }
{
    let [_, further @ ..] = own else {
        return Err(WordsFault::BadWords);
    };
    let images = count_images(further)?;
    let number = read_number_in(alloc, &own[..1], 0, 0xffff_ffff_ffff_ffff)?;
    Ok(PairCommand::Pair { number, images })
}

// The further images alone.
fn read_pair_boot(own: &[String]) -> Result<PairCommand, WordsFault>
    ensures ok { IfOk result (λ c. (pair_name c ≡ codes "pair-boot") × PairOwn (texts_of own.now) c) }
    ensures refused { IfErr result (λ e. e ≡ WordsFault.BadWords → (command : PairCommand)
        → pair_name command ≡ codes "pair-boot" → PairOwn (texts_of own.now) command → ⊥) }
{
    let images = count_images(own)?;
    Ok(PairCommand::PairBoot { images })
}

// How many images there are with IMAGE.
fn count_images(further: &[String]) -> Result<u32, WordsFault>
    ensures ok { IfOk result (AreImages (texts_of further.now)) }
    ensures refused { IfErr result (λ e. (images : ℕ) → AreImages (texts_of further.now) images → ⊥) }
{
    let further = further.len();
    if further < 1 || further > 7 {
        return Err(WordsFault::BadWords);
    }
    Ok(further as u32 + 1)
}

/// A law on these words: none ask for two commands.
pub fn pair_words_law()
    ensures one { AskForOnePair }
{}
