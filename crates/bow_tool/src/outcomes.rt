// What a command came to.
ghost use Rattle.std.specs.Prelude.{◌≡◌, MatchResult};
ghost use Rattle.bow_tool.specs.declared.outcomes.Outcome.{Outcome};

use crate::refusals::Refusal;

/// What a command came to.
#[derive(Drop)]
pub(crate) enum Outcome {
    /// It was done, and this is its text.
    Done(Vec<u8>),
    /// It was refused.
    Refused(Refusal),
    /// It was done but for its end, as this refusal says: the text of what was done, and the line of that behind it.
    Behind(Refusal, Vec<u8>),
}

// The outcome of a command that is done or refused.
pub(crate) fn outcome_of(answer: Result<Vec<u8>, Refusal>) -> Outcome
    ensures { MatchResult answer (λ text. result ≡ Outcome.Done text) (λ refusal. result ≡ Outcome.Refused refusal) }
{
    match answer {
        Ok(text) => Outcome::Done(text),
        Err(refusal) => Outcome::Refused(refusal),
    }
}
