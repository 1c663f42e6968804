//! What is said of a replay.

ghost use Rattle.std.specs.Prelude.{◌≡◌, ◌++◌, ◌∷◌, [], codes, IfOk, string_bytes};
ghost use Rattle.std.specs.Fmt.{decimal};
ghost use Rattle.ttx_broadcast.specs.ReplayLines as rule;

use crate::recordings::faults::ReplayFault;
use std::alloc::{AllocError, Global};
use ttx_air::AirFault;
use ttx_logbook::LogFault;

// The line of a text that no file has.
fn lost_line(alloc: Global, digest: &str) -> Result<String, AllocError>
    ensures { IfOk result (λ line. string_bytes line ≡ codes "refused: text " ++ digest.now ++ 10 ∷ []) }
{
    format!(in alloc; "refused: text {digest}\n")
}

// The line of a first text that has no edition.
fn refused_line(alloc: Global, words: &str) -> Result<String, AllocError>
    ensures { IfOk result (λ line. string_bytes line ≡ codes "refused: " ++ words.now ++ 10 ∷ []) }
{
    format!(in alloc; "refused: {words}\n")
}

// The line of a log that is not understood.
fn unread_line(alloc: Global, number: usize) -> Result<String, AllocError>
    ensures { IfOk result (λ line. string_bytes line ≡ codes "refused: log line " ++ decimal number ++ 10 ∷ []) }
{
    format!(in alloc; "refused: log line {number}\n")
}

// The line of an end, if the log is the same as far as it goes, or another one.
fn end_line(alloc: Global, is_same: bool, same: &'static str) -> Result<String, AllocError>
    ensures { IfOk result (λ line. string_bytes line ≡ rule.end_text is_same same.now ++ 10 ∷ []) }
{
    if is_same {
        format!(in alloc; "{same}\n")
    } else {
        String::from_str(alloc, "no 1 log\n")
    }
}

/// The line about how a replay ended, whose own log is the same as the given one as far as both go, or another one.
pub fn outcome_line(
    alloc: Global,
    outcome: &Result<(), ReplayFault<'_>>,
    is_same: bool,
) -> Result<String, AllocError>
    ensures { IfOk result (λ line. string_bytes line ≡ rule.outcome_text is_same outcome.now ++ 10 ∷ []) }
{
    match outcome {
        Ok(()) => end_line(alloc, is_same, "yes"),
        Err(ReplayFault::Air(AirFault::Write(_))) => end_line(alloc, is_same, "fault: write"),
        Err(ReplayFault::Lost { digest }) => lost_line(alloc, digest),
        Err(ReplayFault::Refused(words)) => refused_line(alloc, words.as_str()),
        Err(ReplayFault::NoMemory | ReplayFault::Air(_)) => {
            String::from_str(alloc, "fault: memory\n")
        }
    }
}

/// The status of the program after it.
pub fn outcome_status(outcome: &Result<(), ReplayFault<'_>>, is_same: bool) -> u8
    ensures { result ≡ rule.outcome_status is_same outcome.now }
{
    match outcome {
        Ok(()) if is_same => 0,
        Err(ReplayFault::Air(AirFault::Write(_))) if is_same => 3,
        Ok(()) | Err(ReplayFault::Air(AirFault::Write(_))) => 1,
        Err(ReplayFault::Lost { digest: _ } | ReplayFault::Refused(_)) => 2,
        Err(ReplayFault::NoMemory | ReplayFault::Air(_)) => 3,
    }
}

/// The line about a text that is no log.
pub fn log_line(alloc: Global, fault: &LogFault) -> Result<String, AllocError>
    ensures { IfOk result (λ line. string_bytes line ≡ rule.log_text fault.now ++ 10 ∷ []) }
{
    match fault {
        LogFault::Line { line } => unread_line(alloc, *line),
        LogFault::NoMemory => String::from_str(alloc, "fault: memory\n"),
    }
}
