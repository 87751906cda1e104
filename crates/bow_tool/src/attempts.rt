// The lines of the commands on the attempts.
ghost use Rattle.std.specs.Prelude.{◌≡◌, Some, MatchResult, IfOk};
ghost use Rattle.bow_tool.specs.Attempts.{attempts_line, answer_line};
ghost use Rattle.bow_tool.specs.Tellings.{refusal_of_attempts, refusal_of_start};
ghost use Rattle.bow_tool.specs.declared.refusals.Refusal.{Refusal};

use crate::lines::line;
use crate::refusals::Refusal;
use bow_units::NoMemory;
use std::alloc::Global;
use vold_commands::StartFault;
use vold_meta::AttemptFault;

// The line of the attempts that a command answered: `attempts A` or `no attempts`.
pub(crate) fn told_attempts(
    alloc: Global,
    answer: Result<Option<u32>, AttemptFault>,
) -> Result<Vec<u8>, Refusal>
    ensures { MatchResult answer (λ attempts. MatchResult result (λ text. text.items ≡ attempts_line attempts)
        (λ refusal. refusal ≡ Refusal.NoMemory)) (λ fault. MatchResult result (λ _. ⊥)
        (λ refusal. refusal ≡ refusal_of_attempts fault)) }
{
    match answer {
        Ok(attempts) => Ok(line_of(alloc, attempts)?),
        Err(AttemptFault::KeeperFault) => Err(Refusal::KeeperFault),
        Err(AttemptFault::BadAttempts) => Err(Refusal::BadAttempts),
    }
}

// The line of the answer to a question on the attempts: `yes` or `no`.
pub(crate) fn told_answer(
    alloc: Global,
    answer: Result<bool, AttemptFault>,
) -> Result<Vec<u8>, Refusal>
    ensures { MatchResult answer (λ yes. MatchResult result (λ text. text.items ≡ answer_line yes)
        (λ refusal. refusal ≡ Refusal.NoMemory)) (λ fault. MatchResult result (λ _. ⊥)
        (λ refusal. refusal ≡ refusal_of_attempts fault)) }
{
    match answer {
        Ok(true) => Ok(line(alloc, b"yes\n")?),
        Ok(false) => Ok(line(alloc, b"no\n")?),
        Err(AttemptFault::KeeperFault) => Err(Refusal::KeeperFault),
        Err(AttemptFault::BadAttempts) => Err(Refusal::BadAttempts),
    }
}

// The line of the attempts that a start keeps.
pub(crate) fn told_start(alloc: Global, answer: Result<u32, StartFault>) -> Result<Vec<u8>, Refusal>
    ensures { MatchResult answer (λ attempts. MatchResult result (λ text. text.items ≡ attempts_line (Some attempts))
        (λ refusal. refusal ≡ Refusal.NoMemory)) (λ fault. MatchResult result (λ _. ⊥)
        (λ refusal. refusal ≡ refusal_of_start fault)) }
{
    match answer {
        Ok(attempts) => Ok(line_of(alloc, Some(attempts))?),
        // Words that ask for a start have no more retries than may be.
        Err(StartFault::BadRetry(_)) => Err(Refusal::BadWords),
        Err(StartFault::KeeperFault) => Err(Refusal::KeeperFault),
    }
}

// The line of attempts.
fn line_of(alloc: Global, attempts: Option<u32>) -> Result<Vec<u8>, NoMemory>
    ensures { IfOk result (λ text. text.items ≡ attempts_line attempts) }
{
    match attempts {
        Some(number) => {
            let line = format!(in alloc; "attempts {number}\n")?;
            Ok(line.into_bytes())
        }
        None => line(alloc, b"no attempts\n"),
    }
}
