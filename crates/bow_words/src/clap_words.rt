// A command's own words, as `clap` reads them.
ghost use Rattle.std.specs.Prelude.{◌≡◌, [], true, IfOk, IfErr};
ghost use Rattle.clap.specs.Words.{Text, app_of, fault_of, first_value, found_of, is_simple, is_simple_and_free};
ghost use Rattle.bow_words.specs.Words.{limit_app, none_app, number_app, past_app, retry_app, texts_of, word_at};

use crate::faults::WordsFault;
use clap::error::ErrorKind;
use clap::{Arg, ArgAction, ArgMatches, Command};
use std::alloc::{AllocError, Global};

/// What `clap` finds in a command's own words.
#[tactic(auto, using(crate::proofs::Reading::value_by_rows))]
pub(crate) fn parse<'a>(
    command: Command<'a>,
    words: &'a [String],
) -> Result<ArgMatches<'a>, WordsFault>
    requires simple { is_simple (app_of command) ≡ true }
    requires free { is_simple_and_free (app_of command) ≡ true }
    ensures taken { IfOk result (λ m. fault_of (app_of command.entry) (texts_of words.entry.now) ≡ []) }
    ensures values { IfOk result (λ m. (id : Text) → first_value (found_of m) id
        ≡ word_at (app_of command.entry) id (texts_of words.entry.now)) }
    ensures refused { IfErr result (λ e. e ≡ WordsFault.BadWords
        → fault_of (app_of command.entry) (texts_of words.entry.now) ≡ [] → ⊥) }
{
    match command.try_get_matches_from(words) {
        Ok(matches) => Ok(matches),
        Err(error) => {
            if error.kind() == ErrorKind::OutOfMemory {
                Err(WordsFault::NoMemory)
            } else {
                Err(WordsFault::BadWords)
            }
        }
    }
}

/// A command with no own words, that knows no help and no version.
pub(crate) fn of_none<'a>(alloc: Global) -> Command<'a>
    ensures { app_of result ≡ none_app }
{
    Command::new(alloc, "bow")
        .no_binary_name(true)
        .disable_help_flag(true)
        .disable_version_flag(true)
}

/// One number.
pub(crate) fn of_number<'a>(alloc: Global) -> Result<Command<'a>, AllocError>
    ensures { IfOk result (λ c. app_of c ≡ number_app) }
{
    of_none(alloc).arg(Arg::new(alloc, "number").required(true))
}

/// The number of a schedule, a first block, and how many blocks.
pub(crate) fn of_past<'a>(alloc: Global) -> Result<Command<'a>, AllocError>
    ensures { IfOk result (λ c. app_of c ≡ past_app) }
{
    of_none(alloc)
        .arg(Arg::new(alloc, "number").required(true))?
        .arg(Arg::new(alloc, "first").required(true))?
        .arg(Arg::new(alloc, "count").required(true))
}

/// `--limit K`, or nothing.
pub(crate) fn of_limit<'a>(alloc: Global) -> Result<Command<'a>, AllocError>
    ensures { IfOk result (λ c. app_of c ≡ limit_app) }
{
    of_none(alloc).arg(Arg::new(alloc, "limit").long("limit"))
}

/// `--retry`, or nothing.
pub(crate) fn of_retry<'a>(alloc: Global) -> Result<Command<'a>, AllocError>
    ensures { IfOk result (λ c. app_of c ≡ retry_app) }
{
    let retry = Arg::new(alloc, "retry")
        .long("retry")
        .action(ArgAction::SetTrue);
    of_none(alloc).arg(retry)
}
