// A command's own words: none, a number, three numbers, a limit, or a wish.
ghost use Rattle.std.specs.Prelude.{◌≡◌, ◌<◌, ◌≤◌, ◌^◌, ℕ, Bool, Option, IfOk, IfErr, option_map, Some, codes};
ghost use Rattle.bow_words.specs.Words.{AreLimit, AreNumber, ArePast, AreRetry, OwnWords, SpellsIn, Takes};
ghost use Rattle.bow_words.specs.Words.{name_of, none_app, texts_of, truth_text};

use crate::clap_words::{of_limit, of_none, of_number, of_past, of_retry, parse};
use crate::commands::Command;
use crate::faults::WordsFault;
use bow_units::read_number;
use std::alloc::Global;

/// No own words.
#[tactic(auto, using(crate::proofs::Simple::none_simple))]
pub(crate) fn read_none(alloc: Global, words: &[String]) -> Result<(), WordsFault>
    ensures ok { IfOk result (λ _. Takes none_app (texts_of words.now)) }
    ensures refused { IfErr result (λ e. e ≡ WordsFault.BadWords → Takes none_app (texts_of words.now) → ⊥) }
{
    parse(of_none(alloc), words)?;
    Ok(())
}

/// One number, from `least` to `most`.
#[tactic(auto, using(crate::proofs::Simple::number_simple))]
pub(crate) fn read_number_in(
    alloc: Global,
    words: &[String],
    least: u64,
    most: u64,
) -> Result<u64, WordsFault>
    ensures ok { IfOk result (AreNumber least most (texts_of words.now)) }
    ensures refused { IfErr result (λ e. e ≡ WordsFault.BadWords
        → (n : ℕ) → n < 2 ^ 64 → AreNumber least most (texts_of words.now) n → ⊥) }
{
    let matches = match of_number(alloc) {
        Ok(command) => parse(command, words)?,
        Err(_) => return Err(WordsFault::NoMemory),
    };
    number_in(matches.get_str("number"), least, most)
}

/// The number of a schedule, a first block, and how many blocks.
#[tactic(auto, using(crate::proofs::Simple::past_simple))]
pub(crate) fn read_past(alloc: Global, words: &[String]) -> Result<Command, WordsFault>
    ensures ok { IfOk result (λ c. (name_of c ≡ codes "past") × OwnWords (texts_of words.now) c) }
    ensures refused { IfErr result (λ e. e ≡ WordsFault.BadWords → (n first count : ℕ)
        → n < 2 ^ 64 → first < 2 ^ 64 → count < 2 ^ 64 → ArePast (texts_of words.now) n first count → ⊥) }
{
    let matches = match of_past(alloc) {
        Ok(command) => parse(command, words)?,
        Err(_) => return Err(WordsFault::NoMemory),
    };
    let number = number_in(matches.get_str("number"), 0, 0xffff_ffff_ffff_ffff)?;
    let first = number_in(matches.get_str("first"), 0, 0xffff_ffff)?;
    let count = number_in(matches.get_str("count"), 1, 4096)?;
    Ok(Command::Past(number, first as u32, count as u32))
}

/// A limit, or none.
#[tactic(auto, using(crate::proofs::Simple::limit_simple))]
pub(crate) fn read_limit(alloc: Global, words: &[String]) -> Result<Option<u32>, WordsFault>
    ensures ok { IfOk result (AreLimit (texts_of words.now)) }
    ensures refused { IfErr result (λ e. e ≡ WordsFault.BadWords
        → (limit : Option ℕ) → AreLimit (texts_of words.now) limit → ⊥) }
{
    let matches = match of_limit(alloc) {
        Ok(command) => parse(command, words)?,
        Err(_) => return Err(WordsFault::NoMemory),
    };
    match matches.get_str("limit") {
        Some(word) => Ok(Some(number_in(Some(word), 1, 0xffff_ffff)? as u32)),
        None => Ok(None),
    }
}

/// Whether a retry is wished for.
#[tactic(auto, using(crate::proofs::Simple::retry_simple))]
pub(crate) fn read_retry(alloc: Global, words: &[String]) -> Result<bool, WordsFault>
    ensures ok { IfOk result (AreRetry (texts_of words.now)) }
    ensures refused { IfErr result (λ e. e ≡ WordsFault.BadWords
        → (retry : Bool) → AreRetry (texts_of words.now) retry → ⊥) }
{
    let matches = match of_retry(alloc) {
        Ok(command) => parse(command, words)?,
        Err(_) => return Err(WordsFault::NoMemory),
    };
    let retry = truth_of(matches.get_str("retry"))?;
    Ok(retry)
}

// The truth value of which this is the text.
fn truth_of(word: Option<&str>) -> Result<bool, WordsFault>
    ensures ok { IfOk result (λ b. option_map (λ s. s.now) word.entry ≡ Some (truth_text b)) }
    ensures refused { IfErr result (λ e. (b : Bool) → option_map (λ s. s.now) word.entry ≡ Some (truth_text b) → ⊥) }
{
    match word {
        Some(word) => {
            if word == "true" {
                Ok(true)
            } else if word == "false" {
                Ok(false)
            } else {
                Err(WordsFault::BadWords)
            }
        }
        None => Err(WordsFault::BadWords),
    }
}

// The number that the word spells, in this range.
#[tactic(auto, using(crate::proofs::Numbers::spells_in_range))]
fn number_in(word: Option<&str>, least: u64, most: u64) -> Result<u64, WordsFault>
    ensures ok { IfOk result (SpellsIn least most (option_map (λ s. s.now) word.entry)) }
    ensures refused { IfErr result (λ e. (n : ℕ) → n < 2 ^ 64
        → SpellsIn least most (option_map (λ s. s.now) word.entry) n → ⊥) }
{
    match word {
        Some(word) => match read_number(word.as_bytes()) {
            Some(number) => {
                if least > number || number > most {
                    return Err(WordsFault::BadWords);
                }
                Ok(number)
            }
            None => Err(WordsFault::BadWords),
        },
        None => Err(WordsFault::BadWords),
    }
}
